use crate::step::*;
use crate::told::*;
use crate::words::*;
use shelf::fault::ShelfFault;
use std::test::Fail;
use steps::fault::PlanFault;
use steps::hanging::Hanging;

#[test]
fn text_of_plans(rt: HostRuntime) -> Result<(), Fail> {
    let first = Step {
        number: 0,
        time: 15,
    };
    let second = Step {
        number: 3,
        time: 40,
    };
    let way = Told::Way {
        steps: vec![in rt.alloc(); first, second]?,
        time: 55,
        rounds: 2,
    };
    assert_eq!(rt;
        way.to_string(rt.alloc())?.as_str(),
        "way 2 moves 55 tenths 2 rounds\n0 15\n3 40\n"
    );
    let none = Told::NoWay { rounds: 0 };
    assert_eq!(rt; none.to_string(rt.alloc())?.as_str(), "no way 0 rounds\n");
    Ok(())
}

#[test]
fn lines_of_moves(rt: HostRuntime) -> Result<(), Fail> {
    let first = Step {
        number: 0,
        time: 15,
    };
    assert_eq!(rt; first.to_string(rt.alloc())?.as_str(), "0 15");
    let last = Step {
        number: 254,
        time: 65_535,
    };
    assert_eq!(rt; last.to_string(rt.alloc())?.as_str(), "254 65535");
    Ok(())
}

#[test]
fn words_of_a_refusal(rt: HostRuntime) -> Result<(), Fail> {
    let call = Hanging::Sum {
        target: 2,
        left: 2,
        right: 3,
    };
    let fault = PlanFault::NoRoom {
        fault: ShelfFault::NoRoom,
        call,
        round: 4,
        number: Some(17),
    };
    let words = PlanWords { fault, slots: 512 };
    assert_eq!(rt;
        words.to_string(rt.alloc())?.as_str(),
        "refused 18: no room: the charts of the plan need more than the 512 node slots there are\nwhere: the sum of pegs 2 and 3 onto peg 2, in round 4, at move 17\nwhat would help: more node slots, fewer devices, moves or surcharges, or wider masks"
    );
    Ok(())
}
