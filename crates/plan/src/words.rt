// Layers, places and refusals in words.
ghost use Rattle.std.specs.Prelude.{Some};
ghost use Rattle.plan.specs.Words.{layer_name, place_text, record_reason, plan_reason};

use super::fault::{Layer, Place, PlanFault, RecordError, RecordFault};
use std::error::Error;
use std::fmt;

impl fmt::Display for Layer {
    ghost output = { λ layer. Some (layer_name layer) };

    fn fmt<W: fmt::Write>(&self, f: &mut fmt::Formatter<W>) -> fmt::Result {
        f.write_str(match self {
            Layer::Record => "record",
            Layer::Book => "book",
            Layer::Plan => "plan",
            Layer::Runner => "runner",
        })
    }
}

// As the end of a sentence.
impl fmt::Display for Place {
    ghost output = { λ place. Some (place_text place) };

    fn fmt<W: fmt::Write>(&self, f: &mut fmt::Formatter<W>) -> fmt::Result {
        match *self {
            Place::Block(block) => write!(f, "in block {block}"),
            Place::Record(block, record) => write!(f, "in block {block}, record {record}"),
            Place::Task(number) => write!(f, "at task {number}"),
        }
    }
}

// The reason of the refusal. Its number and place are in its account.
impl fmt::Display for RecordError {
    ghost output = { λ error. Some (record_reason error) };

    fn fmt<W: fmt::Write>(&self, f: &mut fmt::Formatter<W>) -> fmt::Result {
        f.write_str(match self {
            RecordError::Period => "the period is zero",
            RecordError::Deadline => "the deadline is zero or longer than the period",
            RecordError::Work => "the work is zero or longer than the deadline",
            RecordError::Constraint => "m is zero or above k, or k is above 32",
            RecordError::SpeedOrRest => {
                "the speed is neither high nor low, or the rest of the record is not zero"
            }
        })
    }
}

impl fmt::Display for RecordFault {
    ghost output = { λ fault. Some (record_reason fault.error) };

    fn fmt<W: fmt::Write>(&self, f: &mut fmt::Formatter<W>) -> fmt::Result {
        write!(f, "{}", self.error)
    }
}

impl fmt::Display for PlanFault {
    ghost output = { λ fault. Some (plan_reason fault) };

    fn fmt<W: fmt::Write>(&self, f: &mut fmt::Formatter<W>) -> fmt::Result {
        match self {
            PlanFault::Record(fault) => write!(f, "{fault}"),
            PlanFault::Full => f.write_str("the plan has 30 tasks already"),
            PlanFault::Ratio => f.write_str("the ratio of the speeds is out of range"),
        }
    }
}

impl Error for RecordError {}

impl Error for RecordFault {}

impl Error for PlanFault {}
