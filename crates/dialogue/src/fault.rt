// Faults of all layers, as the console refuses with them.
ghost use Rattle.std.specs.Prelude.{◌≡◌, ◌++◌, string_bytes, OnOk};
ghost use Rattle.console.specs.Answers.{refusal_line};
ghost use Rattle.dialogue.specs.declared.fault.Cause.TheVariants.{Line, Map, Planner};
ghost use Rattle.dialogue.specs.Faults.{cause_code};

use console::command::LineFault;
use console::print::print_refusal;
use definitions::FaultCode;
use histories::fault::PlannerFault;
use maps::fault::MapFault;
use std::alloc::AllocError;

// The fault of the line itself, of the map, or of the planner's call, whole.
#[derive(Clone, Copy, PartialEq, Eq, Debug)]
pub enum Cause {
    Line(LineFault),
    Map(MapFault),
    Planner(PlannerFault),
}

// A fault and the line that it refuses; 0 is for what comes before the first line.
#[derive(Clone, Copy, PartialEq, Eq, Debug)]
pub struct ConsoleFault {
    pub line: u64,
    pub cause: Cause,
}

impl From<LineFault> for Cause {
    ghost from_gives = { λ e r. r ≡ Line e };

    fn from(fault: LineFault) -> Cause {
        Cause::Line(fault)
    }
}

impl From<MapFault> for Cause {
    ghost from_gives = { λ e r. r ≡ Map e };

    fn from(fault: MapFault) -> Cause {
        Cause::Map(fault)
    }
}

impl From<PlannerFault> for Cause {
    ghost from_gives = { λ e r. r ≡ Planner e };

    fn from(fault: PlannerFault) -> Cause {
        Cause::Planner(fault)
    }
}

// Layer, number and place: those of the fault that it carries.
impl From<ConsoleFault> for FaultCode {
    ghost from_gives = { λ e r. r ≡ cause_code e.cause };

    fn from(fault: ConsoleFault) -> FaultCode {
        match fault.cause {
            Cause::Line(carried) => FaultCode::from(carried),
            Cause::Map(carried) => FaultCode::from(carried),
            Cause::Planner(carried) => FaultCode::from(carried),
        }
    }
}

// Adds the line of the refusal.
pub(crate) fn print_fault(out: &mut String, fault: ConsoleFault) -> Result<(), AllocError>
    ensures { OnOk result (string_bytes out.new ≡ string_bytes out.old ++ refusal_line fault.line (cause_code fault.cause)) }
{
    print_refusal(out, fault.line, FaultCode::from(fault))
}
