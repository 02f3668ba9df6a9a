ghost use Rattle.std.specs.Prelude.{◌≡◌, MatchOption};
ghost use Rattle.table.specs.Tables.{Table};
ghost use Rattle.nodes.specs.Keys.{SameKey, initial_of};
ghost use Rattle.memo.specs.Results.{Unknown, Recalled, Added};

use nodes::edge::Edge;
use nodes::remembered::{Key, Remembered};
use table::found::Found;
use table::slots::{clear, find, intern};

// The work is on slices, which the methods of `Diagrams` lend. Clauses say that a slice is a table: no type says it of a lent one.
/// The result that is remembered for the key, if there is one.
pub fn recall(memo: &[Option<Remembered>], key: &Key) -> Option<Edge>
    requires { Table SameKey initial_of memo.now }
    ensures { MatchOption result (Unknown memo.now key.now) (Recalled memo.now key.now) }
{
    let sought = Remembered {
        key: *key,
        result: key.left,
    };
    // Two arms that answer none: of a pattern for both a proof would not know what either tells.
    match find(memo, &sought) {
        Found::At(i) => memo[i].map(|x| x.result),
        Found::Free(_) => None,
        Found::Full => None,
    }
}

/// Remembers a result. Where no slot is free, all others are forgotten.
pub fn remember(memo: &mut [Option<Remembered>], x: Remembered)
    requires { Table SameKey initial_of memo.old }
    ensures table { Table SameKey initial_of memo.new }
    ensures added { Added memo.old memo.new x }
{
    if intern(memo, x).is_none() {
        clear(memo);
        let _ = intern(memo, x);
    }
}
