// What a line can ask for, and why a line is refused.
ghost use Rattle.std.specs.Prelude.{◌≡◌};
ghost use Rattle.console.specs.Faults.{line_code};

use definitions::FaultCode;

// One command, with the nodes, places and groups that stand on its line.
#[derive(Clone, Copy, PartialEq, Eq, Debug)]
pub enum Command {
    // Plan for a destination.
    Plan(u16),
    // The guarantee of a node.
    Guarantee(u16),
    // The guaranteed route of a node.
    Route(u16),
    // The backup of a node's next link.
    Backup(u16),
    // Withdraw a link.
    Withdraw(u16),
    // Restore a link.
    Restore(u16),
    // The trace from a node when one link fails.
    TraceLink(u16, u16),
    // The trace from a node when all links of a risk group fail.
    TraceGroup(u16, u16),
}

// Why a line is refused. Each case holds the byte where the bad word starts or should start.
#[derive(Clone, Copy, PartialEq, Eq, Debug)]
pub enum LineFault {
    // A word does not fit, is missing or is one too many.
    BadWord(usize),
    // A number is above 65,535.
    TooLarge(usize),
}

// Layer, number and place of the fault.
impl From<LineFault> for FaultCode {
    ghost from_gives = { λ e r. r ≡ line_code e };

    fn from(fault: LineFault) -> FaultCode {
        let (number, place) = match fault {
            LineFault::BadWord(at) => (19, at),
            LineFault::TooLarge(at) => (20, at),
        };
        FaultCode {
            layer: 4,
            number,
            place,
        }
    }
}
