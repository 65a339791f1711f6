// The office's work: the plan of one terminal, and the book that carries it there.
use super::words::Turns;
use book::fault::BookFault;
use book::writer::write;
use plan::draft::Draft;
use plan::fault::PlanFault;
use plan::plan::Plan;
use plan::task::{Ratio, Speed, Task};
use std::io;

// A part of the terminal, and the numbers of its task.
#[derive(Clone, Copy)]
pub struct Part {
    pub name: &'static str,
    pub draft: Draft,
}

// In the order of their task numbers.
pub const PARTS: [Part; 5] = [
    Part {
        name: "ticket printer",
        draft: Draft {
            period: 20,
            deadline: 10,
            work: 3,
            m: 1,
            k: 1,
            speed: Speed::High as u8,
        },
    },
    Part {
        name: "network card",
        draft: Draft {
            period: 10,
            deadline: 5,
            work: 2,
            m: 1,
            k: 1,
            speed: Speed::High as u8,
        },
    },
    Part {
        name: "card reader",
        draft: Draft {
            period: 40,
            deadline: 40,
            work: 8,
            m: 2,
            k: 3,
            speed: Speed::High as u8,
        },
    },
    Part {
        name: "odds display",
        draft: Draft {
            period: 50,
            deadline: 50,
            work: 9,
            m: 3,
            k: 5,
            speed: Speed::Low as u8,
        },
    },
    Part {
        name: "totals panel",
        draft: Draft {
            period: 100,
            deadline: 80,
            work: 10,
            m: 1,
            k: 4,
            speed: Speed::High as u8,
        },
    },
];

// Low speed takes 3/2 times as long as high speed.
pub fn plan_of_the_day() -> Result<Plan, PlanFault> {
    let mut plan = Plan::new();
    plan.set_ratio(3, 2)?;
    for part in PARTS {
        plan.add(part.draft)?;
    }
    Ok(plan)
}

pub fn tell_book(rt: &HostRuntime, book: &[u8]) -> io::Result<()> {
    let length = book.len();
    println!(rt; "It writes the plan as a book of {length} bytes.")
}

// A book of one block, which has room for 15 tasks.
pub fn book_of(plan: &Plan) -> Result<[u8; 512], BookFault> {
    let mut book = [0; 512];
    write(plan, &mut book)?;
    Ok(book)
}

pub fn tell_plan(rt: &HostRuntime, plan: &Plan) -> io::Result<()> {
    println!(rt; "The office makes the plan of the day.")?;
    for (number, (part, task)) in PARTS.iter().zip(plan.tasks()).enumerate() {
        tell_task(rt, number, part.name, task)?;
        tell_work(rt, task, plan.ratio())?;
    }
    Ok(())
}

fn tell_task(rt: &HostRuntime, number: usize, name: &str, task: &Task) -> io::Result<()> {
    let Task {
        period,
        deadline,
        m,
        k,
        ..
    } = *task;
    let turns = Turns { m, k };
    println!(rt;
        "  Task {number}, {name}: every {period} ticks, due within {deadline} ticks, {turns}."
    )
}

fn tell_work(rt: &HostRuntime, task: &Task, ratio: Ratio) -> io::Result<()> {
    let fast = task.work;
    let slow = task.job_work(ratio);
    match task.speed {
        Speed::High => println!(rt; "    It takes {fast} ticks at high speed."),
        Speed::Low => println!(rt; "    It takes {slow} ticks at low speed, {fast} at high speed."),
    }
}
