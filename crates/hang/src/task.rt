use nodes::remembered::Op;

/// What is to be hung: a dial of a device, two pegs joined, or a peg once a device is at a setting.
// Not the `Hanging` of the steps: that is a call on any shelf, target and all, in a crate that knows no diagrams.
#[derive(Clone, Copy)]
pub enum Task {
    Dial {
        device: u8,
        entries: [Option<u64>; 8],
    },
    Join {
        op: Op,
        left: u8,
        right: u8,
    },
    Put {
        peg: u8,
        device: u8,
        setting: u8,
    },
}
