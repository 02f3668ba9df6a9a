use crate::hanging::Hanging;
use shelf::fault::ShelfFault;

/// A refusal by the shelf: its own fault, the call that it refused, and the round of that call.
#[derive(Clone, Copy, PartialEq, Eq, Debug)]
pub struct Halt {
    pub fault: ShelfFault,
    pub call: Hanging,
    pub round: u64,
}
