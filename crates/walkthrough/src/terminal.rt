// The terminal's work: it reads its book and goes through the records.
use super::office::PARTS;
use book::cursor::{Cursor, Record};
use book::fault::BookFault;
use book::reader::read;
use plan::plan::Plan;
use plan::task::Ratio;
use std::io;

pub fn plan_of(book: &[u8]) -> Result<Plan, BookFault> {
    let mut plan = Plan::new();
    read(book, &mut plan)?;
    Ok(plan)
}

pub fn tell_plan(rt: &HostRuntime, held: &Plan, sent: &Plan) -> io::Result<()> {
    let tasks = held.len();
    let Ratio { p, q } = held.ratio();
    let verdict = if held.same(sent) {
        "the same as"
    } else {
        "another than"
    };
    println!(rt;
        "The terminal reads the book: {tasks} tasks, and low speed takes {p}/{q} times as long as high speed."
    )?;
    println!(rt; "Its plan is {verdict} the office's.")
}

pub fn tell_records(rt: &HostRuntime, mut cursor: Cursor) -> io::Result<()> {
    println!(rt;
        "The cursor goes through the records. In the first nine bytes stand period, deadline and work,"
    )?;
    println!(rt;
        "two bytes each with the low one first, then m, k and the speed, 0 for high and 1 for low."
    )?;
    for (part, record) in PARTS.iter().zip(cursor.by_ref()) {
        tell_record(rt, part.name, record)?;
    }
    let rest = if cursor.next().is_some() {
        "more"
    } else {
        "nothing"
    };
    println!(rt; "After the last record the cursor hands out {rest}.")
}

fn tell_record(rt: &HostRuntime, name: &str, record: Record) -> io::Result<()> {
    let Record {
        bytes,
        block,
        number,
    } = record;
    let front = &bytes[..9];
    println!(rt; "  Block {block}, record {number}, {name}: {front:?}")
}
