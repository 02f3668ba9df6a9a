/// A round of the planning rule by its number, and the shelf that its calls are made on.
#[derive(Drop)]
pub struct Round<'a, S> {
    pub shelf: &'a mut S,
    pub number: u64,
}
