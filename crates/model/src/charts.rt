// The laws of charts and of shelves: each function's contract is a theorem.
ghost use Rattle.model.specs.ChartLaws.{CheaperLaws, SumLaws, PutOnce, SameIsEqual, Lengths, Latest, StaysSound, ThreeParts};

/// Cheaper is commutative, associative and idempotent.
pub fn cheaper_is_lawful()
    ensures { CheaperLaws }
{}

/// Sum is commutative and associative, and each entry is the sum of two, or never.
pub fn sum_is_lawful()
    ensures { SumLaws }
{}

/// A pair put twice is put once.
pub fn put_is_idempotent()
    ensures { PutOnce }
{}

/// Same is equality of charts.
pub fn same_is_equality()
    ensures { SameIsEqual }
{}

/// Dial, cheaper, sum and put give an entry for each scene.
pub fn charts_are_whole()
    ensures { Lengths }
{}

/// No operation gives a time above what the greatest times that it reads allow.
pub fn times_stay_legal()
    ensures { Latest }
{}

/// The dial of device 0 with 0 and 5, over settings 2, 3 and 2, has three different parts.
pub fn dial_has_three_parts()
    ensures { ThreeParts }
{}

/// Whatever is called, each chart on a peg has an entry for each scene, and no time above the greatest.
pub fn shelves_stay_sound()
    ensures { StaysSound }
{}
