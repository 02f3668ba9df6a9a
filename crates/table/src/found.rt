/// What a search answers: the slot of the entry with the key, the free slot where it belongs, or that no slot is free.
// Interning tells the three apart; an `Option<Result<usize, usize>>` would say less in more words.
#[derive(Clone, Copy)]
pub enum Found {
    At(usize),
    Free(usize),
    Full,
}
