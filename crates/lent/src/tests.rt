use crate::hanging::hang;
use crate::opening::open;
use crate::paths::walk;
use hang::task::Task;
use nodes::remembered::Op;
use table::slots::taken;

#[test]
fn a_sum_of_dials_is_hung_in_arrays(rt: HostRuntime) {
    let settings = [2, 3];
    let mut nodes = [None; 8];
    let mut spare = [None; 8];
    let mut moved = [None; 8];
    let mut memo = [None; 8];
    let mut pegs = [None; 3];
    open(&mut nodes, &mut memo, &settings, &mut pegs);
    let tens = Task::Dial {
        device: 0,
        entries: [Some(0), Some(10), None, None, None, None, None, None],
    };
    let hung = hang(
        tens, &mut nodes, &mut spare, &mut moved, &mut memo, &settings, &mut pegs, 0,
    );
    assert!(rt; hung);
    let ones = Task::Dial {
        device: 1,
        entries: [Some(1), Some(2), Some(3), None, None, None, None, None],
    };
    let hung = hang(
        ones, &mut nodes, &mut spare, &mut moved, &mut memo, &settings, &mut pegs, 1,
    );
    assert!(rt; hung);
    let sum = Task::Join {
        op: Op::Sum,
        left: 0,
        right: 1,
    };
    let hung = hang(
        sum, &mut nodes, &mut spare, &mut moved, &mut memo, &settings, &mut pegs, 2,
    );
    assert!(rt; hung);
    let edge = taken(&pegs, 2);
    assert!(rt; edge.is_some());
    if let Some(e) = edge {
        assert!(rt; walk(&nodes, &settings, &[1, 2], 0, e) == Some(13));
        assert!(rt; walk(&nodes, &settings, &[0, 1], 0, e) == Some(2));
    }
}
