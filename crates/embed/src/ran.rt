/// A run that was performed: how many bytes the file has of what it leaves, and how long it takes.
#[derive(Clone, Copy)]
pub struct Ran {
    pub length: usize,
    pub time: u64,
}
