/// What a plan says. Times are in tenths of a second; the rounds are those that made some scene cheaper.
#[derive(Clone, Copy, PartialEq, Eq, Debug)]
pub enum Plan {
    /// There is a way: so many moves, which fill the sheet's front, and the time that they take.
    Way {
        moves: usize,
        time: u64,
        rounds: u64,
    },
    /// No run of moves leads to a wanted scene.
    NoWay {
        rounds: u64,
    },
}
