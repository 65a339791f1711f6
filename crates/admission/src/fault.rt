// Why a plan is not started, with what each refusal says.
ghost use Rattle.std.specs.Prelude.{◌≡◌, Some};
ghost use Rattle.admission.specs.Refusals.{start_account, start_reason};

use plan::fault::{Account, Layer, Overload};
use std::error::Error;
use std::fmt;

#[derive(Clone, Copy, PartialEq, Eq, Debug)]
pub enum StartFault {
    // the cycle is above 1,048,576 ticks
    TooLong,
    // no timetable serves the plan: this span holds more work than ticks
    Overloaded(Overload),
}

impl From<StartFault> for Account {
    ghost from_gives = { λ fault r. r ≡ start_account fault };

    // A variant that carries a value has no number of its own, so the numbers stand here.
    fn from(fault: StartFault) -> Account {
        let (number, overload) = match fault {
            StartFault::TooLong => (12, None),
            StartFault::Overloaded(overload) => (13, Some(overload)),
        };
        Account {
            number,
            layer: Layer::Runner,
            place: None,
            overload,
        }
    }
}

impl fmt::Display for StartFault {
    ghost output = { λ fault. Some (start_reason fault) };

    fn fmt<W: fmt::Write>(&self, f: &mut fmt::Formatter<W>) -> fmt::Result {
        f.write_str(match self {
            StartFault::TooLong => "the cycle is longer than 1,048,576 ticks",
            StartFault::Overloaded(_) => "a span holds more work than ticks",
        })
    }
}

impl Error for StartFault {}
