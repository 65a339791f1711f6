// What a runner is asked, and what it answers.
use super::fault::{LoadFault, TaskFault};
use admission::fault::StartFault;
use plan::plan::Plan;
use service::ticks::TickAnswer;

#[derive(Clone, Copy)]
pub enum Call<'a> {
    Start(Plan),
    // the bytes of the book
    Load(&'a [u8]),
    Tick,
    // the number of a task
    Done(usize),
    Ask(usize),
}

// A start and a load answer the cycle, a done report the ticks saved, and ask the work left and the ticks left, if any work
// is: a pair in an `Option`, so the rules have it.
#[derive(Clone, Copy, PartialEq, Eq, Debug)]
pub enum Answer {
    Start(Result<u32, StartFault>),
    Load(Result<u32, LoadFault>),
    Tick(TickAnswer),
    Done(Result<u32, TaskFault>),
    Ask(Result<Option<(u32, u16)>, TaskFault>),
}
