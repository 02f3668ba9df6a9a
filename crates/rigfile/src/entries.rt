//! The surcharges and moves of a file.
ghost use Rattle.std.specs.Prelude.{◌≤◌, length};
ghost use Rattle.std.specs.List.{flat_map};
ghost use Rattle.model.specs.Limits.{most_slots};
ghost use Rattle.moves.specs.Views.{move_of};
ghost use Rattle.format.specs.Files.{entry as entry_bytes};
ghost use Rattle.rigfile.specs.Writing.{Room, Puts, surcharge_bytes, slot_bytes, slots_bytes};

use crate::writer::Writer;
use moves::entry::{Move, Surcharge};

// Lengths and numbers go by `as` into a byte: a list has at most 12 items, a table 255 slots, and `try_from` would only add
// an `unwrap`.
impl Writer<'_> {
    fn surcharge(&mut self, surcharge: &Surcharge)
        requires { Room self.old (surcharge_bytes surcharge.now) }
        ensures { Puts self.old (surcharge_bytes surcharge.now) self.new }
    {
        let tests = surcharge.tests();
        self.bytes(&[tests.len() as u8]);
        self.number(surcharge.extra());
        self.pairs(tests);
    }

    // A loop as in `pairs`: one loop for both would take a closure or a trait, whose contract would be longer than the loop.
    fn surcharges(&mut self, surcharges: &[Surcharge])
        requires { Room self.old (flat_map surcharge_bytes surcharges.now) }
        ensures { Puts self.old (flat_map surcharge_bytes surcharges.now) self.new }
    {
        for surcharge in surcharges {
            self.surcharge(surcharge);
        }
    }

    /// Puts a move with its number: how long its lists are, its base, and the lists.
    fn entry(&mut self, number: u8, entry: &Move)
        requires { Room self.old (entry_bytes (record { number = number; move = move_of entry.now })) }
        ensures { Puts self.old (entry_bytes (record { number = number; move = move_of entry.now })) self.new }
    {
        let conditions = entry.conditions();
        let effects = entry.effects();
        let surcharges = entry.surcharges();
        self.bytes(&[
            number,
            conditions.len() as u8,
            effects.len() as u8,
            surcharges.len() as u8,
        ]);
        self.number(entry.base());
        self.pairs(conditions);
        self.pairs(effects);
        self.surcharges(surcharges);
    }

    /// Puts the move of a slot with the slot's number, or nothing where it is vacant.
    fn slot(&mut self, number: u8, slot: &Option<Move>)
        requires { Room self.old (slot_bytes number slot.now) }
        ensures { Puts self.old (slot_bytes number slot.now) self.new }
    {
        if let Some(entry) = slot {
            self.entry(number, entry);
        }
    }

    /// Puts the moves of the slots in use by rising number.
    pub(crate) fn slots(&mut self, slots: &[Option<Move>])
        requires room { Room self.old (slots_bytes 0 slots.now) }
        requires few { length slots.now ≤ most_slots }
        ensures { Puts self.old (slots_bytes 0 slots.now) self.new }
    {
        for (number, slot) in slots.iter().enumerate() {
            self.slot(number as u8, slot);
        }
    }
}
