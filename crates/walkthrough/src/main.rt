// The day of a betting terminal: the office makes its plan and writes the book, the terminal reads it and goes
// through it, and then damaged copies of the book and slips of the firmware are refused, each for its reason.
#![tactic(auto)]

mod damage;
mod firmware;
mod office;
mod terminal;
mod trouble;
mod words;

use book::cursor::Cursor;
use trouble::Trouble;

fn main(rt: HostRuntime) -> Result<(), Trouble> {
    day(&rt)
}

fn day(rt: &HostRuntime) -> Result<(), Trouble> {
    let sent = office::plan_of_the_day()?;
    office::tell_plan(rt, &sent)?;
    let book = office::book_of(&sent)?;
    office::tell_book(rt, &book)?;
    let held = terminal::plan_of(&book)?;
    terminal::tell_plan(rt, &held, &sent)?;
    terminal::tell_records(rt, Cursor::open(&book)?)?;
    damage::tell_copies(rt, &book, &held)?;
    firmware::tell_slips(rt, held)?;
    Ok(())
}
