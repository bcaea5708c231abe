// The first line, which names the measure.
ghost use Rattle.std.specs.Prelude.{◌≡◌, Some};
ghost use Rattle.console.specs.FirstLine.{measure_letter, measure_named};

use crate::command::LineFault;
use std::fmt;

#[derive(Clone, Copy, PartialEq, Eq, Debug)]
pub enum MeasureName {
    Delay,
    Width,
}

// The measure that the first line names: it is just D or just C.
impl TryFrom<&[u8]> for MeasureName {
    type Error = LineFault;

    ghost try_from_gives = { λ line r. r ≡ measure_named line.now };

    fn try_from(line: &[u8]) -> Result<MeasureName, LineFault> {
        let [letter] = line else {
            return Err(LineFault::BadWord(0));
        };
        match char::from(*letter) {
            'D' => Ok(MeasureName::Delay),
            'C' => Ok(MeasureName::Width),
            _ => Err(LineFault::BadWord(0)),
        }
    }
}

// The letter of a measure.
impl fmt::Display for MeasureName {
    ghost output = { λ name. Some (measure_letter name) };

    fn fmt<W: fmt::Write>(&self, f: &mut fmt::Formatter<W>) -> fmt::Result {
        match self {
            MeasureName::Delay => f.write_char('D'),
            MeasureName::Width => f.write_char('C'),
        }
    }
}
