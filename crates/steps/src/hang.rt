//! One call on a shelf.
ghost use Rattle.std.specs.Prelude.{◌≡◌, [], ◌∷◌};
ghost use Rattle.model.specs.Shelves.{does, done};
ghost use Rattle.model.specs.Shelves.{dial as a_dial, cheaper as a_cheaper, sum as a_sum, put as a_put};
ghost use Rattle.shelf.specs.Faults.{numbered};
ghost use Rattle.steps.specs.Faults.{call_of};
ghost use Rattle.steps.specs.Ends.{Took};

use crate::halt::Halt;
use crate::hanging::Hanging;
use crate::round::Round;
use lists::limits::MOST_SETTINGS;
use shelf::calls::Shelf;
use shelf::fault::ShelfFault;

/// Makes the call.
// By a match: a refusal carries the call, so it is a value before it is made.
fn made<S: Shelf>(shelf: &mut S, call: Hanging) -> Result<(), ShelfFault>
    ensures answer { numbered result ≡ does (S.meaning shelf.old) (call_of call) }
    ensures left { S.meaning shelf.new ≡ done (S.meaning shelf.old) (call_of call) }
{
    match call {
        Hanging::Dial {
            target,
            device,
            entries,
        } => shelf.dial(target, device, &entries),
        Hanging::Cheaper {
            target,
            left,
            right,
        } => shelf.cheaper(target, left, right),
        Hanging::Sum {
            target,
            left,
            right,
        } => shelf.sum(target, left, right),
        Hanging::Put {
            target,
            source,
            device,
            setting,
        } => shelf.put(target, source, device, setting),
    }
}

impl<'a, S: Shelf> Round<'a, S> {
    /// Makes the call. A refusal is passed on with the call and the round.
    pub fn hang(&mut self, call: Hanging) -> Result<(), Halt>
        ensures took { Took S.meaning self.old (call_of call ∷ []) result self.new }
    {
        let round = self.number;
        // No `map_err`: its closure would take a copy of the call, whether it is refused or not.
        if let Err(fault) = made(self.shelf, call) {
            return Err(Halt { fault, call, round });
        }
        Ok(())
    }

    /// Hangs the chart that gives a scene the entry of the device's setting.
    pub fn dial(
        &mut self,
        target: u8,
        device: u8,
        entries: [Option<u64>; MOST_SETTINGS],
    ) -> Result<(), Halt>
        ensures took { Took S.meaning self.old (a_dial target device entries ∷ []) result self.new }
    {
        self.hang(Hanging::Dial {
            target,
            device,
            entries,
        })
    }

    /// Hangs the lesser of two charts at each scene.
    pub fn cheaper(&mut self, target: u8, left: u8, right: u8) -> Result<(), Halt>
        ensures took { Took S.meaning self.old (a_cheaper target left right ∷ []) result self.new }
    {
        self.hang(Hanging::Cheaper {
            target,
            left,
            right,
        })
    }

    /// Hangs the sum of two charts at each scene.
    pub fn sum(&mut self, target: u8, left: u8, right: u8) -> Result<(), Halt>
        ensures took { Took S.meaning self.old (a_sum target left right ∷ []) result self.new }
    {
        self.hang(Hanging::Sum {
            target,
            left,
            right,
        })
    }

    /// Hangs what the source gives a scene once the device is at the setting.
    pub fn put(&mut self, target: u8, source: u8, device: u8, setting: u8) -> Result<(), Halt>
        ensures took { Took S.meaning self.old (a_put target source device setting ∷ []) result self.new }
    {
        self.hang(Hanging::Put {
            target,
            source,
            device,
            setting,
        })
    }
}
