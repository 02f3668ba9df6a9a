//! The input, read whole.
ghost use Rattle.std.specs.Prelude.{IfSome};
ghost use Rattle.planfile.specs.Inputs.{Fed};

use crate::failure::Failure;
use crate::limits::MOST_INPUT;
use std::alloc::Global;
use std::io::Read;

#[tactic(auto, using(crate::proofs::Feeding::whole))]
/// All bytes of the input, where it has no more than a limit. At most one byte is read past it.
pub(crate) fn read_whole<R: Read + Drop>(heap: Global, input: R) -> Result<Vec<u8>, Failure>
    ensures fed { IfSome (R.remaining input) (λ xs. Fed xs result) }
{
    let mut bytes = Vec::new(heap);
    let most = MOST_INPUT as u64 + 1;
    input.take(most).read_to_end(&mut bytes)?;
    if bytes.len() > MOST_INPUT {
        return Err(Failure::InputLong);
    }
    Ok(bytes)
}
