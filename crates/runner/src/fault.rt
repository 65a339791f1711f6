// Why a runner refuses, with what each refusal says.
ghost use Rattle.std.specs.Prelude.{◌≡◌, Some};
ghost use Rattle.runner.specs.Refusals.{by_book, by_start, load_account, task_account, load_reason, task_reason};

use admission::fault::StartFault;
use book::fault::BookFault;
use plan::fault::{Account, Layer, Place};
use std::error::Error;
use std::fmt;

// Why a book is not loaded.
#[derive(Clone, Copy, PartialEq, Eq, Debug)]
pub enum LoadFault {
    Book(BookFault),
    Start(StartFault),
}

// Why a task is not reported done, or cannot be asked for. Each fault carries the task number that was named.
#[derive(Clone, Copy, PartialEq, Eq, Debug)]
pub enum TaskFault {
    // no task of the plan has this number
    Absent(usize),
    // the task has no work left
    NoWork(usize),
    // the task has work left, and is not the one served last
    NotServed(usize),
}

impl From<BookFault> for LoadFault {
    ghost from_gives = { λ fault r. r ≡ by_book fault };

    fn from(fault: BookFault) -> LoadFault {
        LoadFault::Book(fault)
    }
}

impl From<StartFault> for LoadFault {
    ghost from_gives = { λ fault r. r ≡ by_start fault };

    fn from(fault: StartFault) -> LoadFault {
        LoadFault::Start(fault)
    }
}

impl From<LoadFault> for Account {
    ghost from_gives = { λ fault r. r ≡ load_account fault };

    fn from(fault: LoadFault) -> Account {
        match fault {
            LoadFault::Book(fault) => Account::from(fault),
            LoadFault::Start(fault) => Account::from(fault),
        }
    }
}

impl From<TaskFault> for Account {
    ghost from_gives = { λ fault r. r ≡ task_account fault };

    // A variant that carries a value has no number of its own, so the numbers stand here.
    fn from(fault: TaskFault) -> Account {
        let (number, task) = match fault {
            TaskFault::Absent(task) => (14, task),
            TaskFault::NoWork(task) => (15, task),
            TaskFault::NotServed(task) => (16, task),
        };
        Account {
            number,
            layer: Layer::Runner,
            place: Some(Place::Task(task)),
            overload: None,
        }
    }
}

impl fmt::Display for LoadFault {
    ghost output = { λ fault. Some (load_reason fault) };

    fn fmt<W: fmt::Write>(&self, f: &mut fmt::Formatter<W>) -> fmt::Result {
        match self {
            LoadFault::Book(fault) => write!(f, "{fault}"),
            LoadFault::Start(fault) => write!(f, "{fault}"),
        }
    }
}

impl fmt::Display for TaskFault {
    ghost output = { λ fault. Some (task_reason fault) };

    fn fmt<W: fmt::Write>(&self, f: &mut fmt::Formatter<W>) -> fmt::Result {
        f.write_str(match self {
            TaskFault::Absent(_) => "the plan has no task of this number",
            TaskFault::NoWork(_) => "the task has no work left",
            TaskFault::NotServed(_) => "the task was not served in the last tick",
        })
    }
}

impl Error for LoadFault {}

impl Error for TaskFault {}
