// What a refusal says: its number, the layer it comes from, its place, and what it carries.
ghost use Rattle.std.specs.Prelude.{◌≡◌};
ghost use Rattle.plan.specs.Refusals.{in_plan, record_account, plan_account};

#[derive(Clone, Copy, PartialEq, Eq, Debug)]
pub enum Layer {
    Record,
    Book,
    Plan,
    Runner,
}

// Blocks, records and tasks are numbered from 0.
#[derive(Clone, Copy, PartialEq, Eq, Debug)]
pub enum Place {
    Block(usize),
    // the block, and the record in it
    Record(usize, usize),
    Task(usize),
}

// An overloaded span, from `start` to `end`, and the work that it would have to hold, in ticks.
#[derive(Clone, Copy, PartialEq, Eq, Debug)]
pub struct Overload {
    pub start: u32,
    pub end: u32,
    pub work: u32,
}

// A refusal as it is told: the rules name each by its number.
#[derive(Clone, Copy, PartialEq, Eq, Debug)]
pub struct Account {
    pub number: u8,
    pub layer: Layer,
    pub place: Option<Place>,
    pub overload: Option<Overload>,
}

// The first of a task's numbers that is out of bounds. The value of each variant is the number of its refusal.
#[derive(Clone, Copy, PartialEq, Eq, Debug)]
pub enum RecordError {
    // it is 0
    Period = 7,
    // it is 0, or above the period
    Deadline = 8,
    // it is 0, or above the deadline
    Work = 9,
    // m is 0, m is above k, or k is above 32
    Constraint = 10,
    // the speed is above 1, or the rest of a book's record is not zero
    SpeedOrRest = 11,
}

// A record's fault carries the place that its reader gave it.
#[derive(Clone, Copy, PartialEq, Eq, Debug)]
pub struct RecordFault {
    pub error: RecordError,
    pub place: Option<Place>,
}

impl From<RecordFault> for Account {
    ghost from_gives = { λ fault r. r ≡ record_account fault };

    fn from(fault: RecordFault) -> Account {
        Account {
            number: fault.error as u8,
            layer: Layer::Record,
            place: fault.place,
            overload: None,
        }
    }
}

#[derive(Clone, Copy, PartialEq, Eq, Debug)]
pub enum PlanFault {
    Record(RecordFault),
    // the plan has 30 tasks already
    Full,
    // a ratio p/q outside 1 ≤ q ≤ p ≤ 16
    Ratio,
}

impl From<RecordFault> for PlanFault {
    ghost from_gives = { λ fault r. r ≡ in_plan fault };

    fn from(fault: RecordFault) -> PlanFault {
        PlanFault::Record(fault)
    }
}

impl From<PlanFault> for Account {
    ghost from_gives = { λ fault r. r ≡ plan_account fault };

    // A variant that carries a value has no number of its own, so the numbers stand here.
    fn from(fault: PlanFault) -> Account {
        match fault {
            PlanFault::Record(fault) => Account::from(fault),
            PlanFault::Full => Account {
                number: 17,
                layer: Layer::Plan,
                place: Some(Place::Task(30)),
                overload: None,
            },
            PlanFault::Ratio => Account {
                number: 5,
                layer: Layer::Plan,
                place: None,
                overload: None,
            },
        }
    }
}
