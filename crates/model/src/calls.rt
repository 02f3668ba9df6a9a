//! Where several refusals hold, the smallest number is answered.
ghost use Rattle.model.specs.Smallest.{RigSmallest, ShelfSmallest};

pub fn rigs_answer_the_smallest_refusal()
    ensures { RigSmallest }
{}

pub fn shelves_answer_the_smallest_refusal()
    ensures { ShelfSmallest }
{}
