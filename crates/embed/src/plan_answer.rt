//! What a plan says, in numbers.
ghost use Rattle.std.specs.Prelude.{◌≡◌};
ghost use Rattle.embed.specs.Told.{joined_told, plan_told, unplanned_told, no_rig_told, no_shelf_told, sent_back_told, no_room_told, plain};

use crate::unfiled::Unfiled;
use crate::unplanned::Unplanned;
use diagram::open_fault::OpenFault;
use planner::answer::Plan;
use steps::fault::PlanFault;
use steps::hanging::Hanging;

/// What a plan says. Values that a verdict or a refusal does not name are 0.
// Numbers where enums belong: C has none of these enums, and passes a struct of numbers.
#[repr(C)]
#[derive(Clone, Copy)]
pub struct PlanAnswer {
    /// 0 for a way, 1 for no way, 2 for a refusal, 3 for want of memory.
    pub verdict: u8,
    /// The number of the refusal.
    pub refusal: u8,
    /// The call that a shelf had no room for: 1 dial, 2 cheaper, 3 sum, 4 put.
    pub call: u8,
    /// The target of that call, and the numbers that follow it.
    pub target: u8,
    pub first: u8,
    pub second: u8,
    pub third: u8,
    /// Whether a move was worked on, and its number.
    pub in_move: bool,
    pub number: u8,
    /// How many moves a way has; where the sheet is short, how many it must hold.
    pub moves: usize,
    /// How long a way takes, in tenths of a second.
    pub time: u64,
    /// The rounds of a way or no way; where a shelf had no room, the round of the call.
    pub rounds: u64,
    /// Where a file is refused, the byte at which the refused move begins, or 0.
    pub byte: usize,
}

const NOTHING: PlanAnswer = PlanAnswer {
    verdict: 0,
    refusal: 0,
    call: 0,
    target: 0,
    first: 0,
    second: 0,
    third: 0,
    in_move: false,
    number: 0,
    moves: 0,
    time: 0,
    rounds: 0,
    byte: 0,
};

/// A refusal under a number, with nothing besides.
fn refused(refusal: u8) -> PlanAnswer
    ensures { result ≡ plain 2 refusal 0 0 0 0 }
{
    PlanAnswer {
        verdict: 2,
        refusal,
        ..NOTHING
    }
}

/// What is known of a refusal, with the numbers of a call that joins two pegs.
fn joined(known: PlanAnswer, call: u8, target: u8, left: u8, right: u8) -> PlanAnswer
    ensures { result ≡ joined_told known call target left right }
{
    PlanAnswer {
        call,
        target,
        first: left,
        second: right,
        ..known
    }
}

/// A refusal for want of room: the call that was refused, its round, and the move that was worked on, if one was.
fn no_room(call: Hanging, rounds: u64, number: Option<u8>) -> PlanAnswer
    ensures { result ≡ no_room_told call rounds number }
{
    let known = PlanAnswer {
        in_move: number.is_some(),
        number: number.unwrap_or(0),
        rounds,
        ..refused(18)
    };
    match call {
        Hanging::Dial { target, device, .. } => PlanAnswer {
            call: 1,
            target,
            first: device,
            ..known
        },
        Hanging::Cheaper {
            target,
            left,
            right,
        } => joined(known, 2, target, left, right),
        Hanging::Sum {
            target,
            left,
            right,
        } => joined(known, 3, target, left, right),
        Hanging::Put {
            target,
            source,
            device,
            setting,
        } => PlanAnswer {
            call: 4,
            target,
            first: source,
            second: device,
            third: setting,
            ..known
        },
    }
}

/// What a plan that is sent back says.
fn sent_back(fault: PlanFault) -> PlanAnswer
    ensures { result ≡ sent_back_told fault }
{
    match fault {
        PlanFault::ShapesDiffer => refused(17),
        PlanFault::NoRoom {
            call,
            round,
            number,
            ..
        } => no_room(call, round, number),
        PlanFault::SheetShort { needed } => PlanAnswer {
            moves: needed,
            ..refused(19)
        },
    }
}

/// What a file that gives no rig says.
fn no_rig(fault: Unfiled) -> PlanAnswer
    ensures { result ≡ no_rig_told fault }
{
    match fault {
        Unfiled::NoMemory => PlanAnswer {
            verdict: 3,
            ..NOTHING
        },
        Unfiled::Refused { number, byte } => PlanAnswer {
            byte,
            ..refused(number)
        },
    }
}

/// What a shelf that does not open says.
fn no_shelf(fault: OpenFault) -> PlanAnswer
    ensures { result ≡ no_shelf_told fault }
{
    match fault {
        OpenFault::CountsOff => refused(1),
        OpenFault::SlotsOff => refused(3),
        OpenFault::NoMemory => PlanAnswer {
            verdict: 3,
            ..NOTHING
        },
    }
}

/// What a file that is not planned says.
fn unplanned(fault: Unplanned) -> PlanAnswer
    ensures { result ≡ unplanned_told fault }
{
    match fault {
        Unplanned::NoRig(fault) => no_rig(fault),
        Unplanned::NoShelf(fault) => no_shelf(fault),
        Unplanned::SentBack(fault) => sent_back(fault),
    }
}

/// What a plan says of the rig in a file.
impl From<Result<Plan, Unplanned>> for PlanAnswer {
    ghost from_gives = { λ x y. y ≡ plan_told x };

    fn from(answer: Result<Plan, Unplanned>) -> PlanAnswer {
        match answer {
            Ok(
                Plan::Way {
                    moves,
                    time,
                    rounds,
                },
            ) => PlanAnswer {
                moves,
                time,
                rounds,
                ..NOTHING
            },
            Ok(Plan::NoWay { rounds }) => PlanAnswer {
                verdict: 1,
                rounds,
                ..NOTHING
            },
            Err(fault) => unplanned(fault),
        }
    }
}
