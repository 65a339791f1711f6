// Copies of the book that were damaged on their way, and what the terminal says to each.
use super::words::tell;
use book::block::mend;
use book::fault::BookFault;
use book::reader::read;
use plan::plan::Plan;
use std::io;

// What happened to the copy, as the tables below name it: data, and no steps to run.
#[derive(Clone, Copy)]
enum Damage {
    // only so many bytes arrive
    Cut(usize),
    // one bit of this byte is flipped
    Flipped(usize),
    // this byte has another value, and the check sum is made right again
    Forged(usize, u8),
}

#[derive(Clone, Copy)]
struct Case {
    story: &'static str,
    damage: Damage,
}

const DAMAGED: [Case; 2] = [
    Case {
        story: "The last byte is lost.",
        damage: Damage::Cut(511),
    },
    Case {
        story: "One bit of byte 40, the ticket printer's speed, is flipped.",
        damage: Damage::Flipped(40),
    },
];

const FORGED: [Case; 9] = [
    Case {
        story: "Byte 0, the kind of the block, is 2.",
        damage: Damage::Forged(0, 2),
    },
    Case {
        story: "Byte 3 counts 16 records.",
        damage: Damage::Forged(3, 16),
    },
    Case {
        story: "Byte 4 makes the ratio 1/2.",
        damage: Damage::Forged(4, 1),
    },
    Case {
        story: "Byte 3 counts 4 records, which leaves the fifth unused.",
        damage: Damage::Forged(3, 4),
    },
    Case {
        story: "Byte 96 makes the card reader's period 0.",
        damage: Damage::Forged(96, 0),
    },
    Case {
        story: "Byte 66 makes the network card's deadline 11 ticks in a period of 10.",
        damage: Damage::Forged(66, 11),
    },
    Case {
        story: "Byte 36 makes the ticket printer's work 11 ticks with a deadline of 10.",
        damage: Damage::Forged(36, 11),
    },
    Case {
        story: "Byte 134 asks for 6 of any 5 turns of the odds display.",
        damage: Damage::Forged(134, 6),
    },
    Case {
        story: "Byte 168 makes the totals panel's speed 2.",
        damage: Damage::Forged(168, 2),
    },
];

pub fn tell_copies(rt: &HostRuntime, book: &[u8; 512], plan: &Plan) -> io::Result<()> {
    let mut held = *plan;
    println!(rt; "Two copies of the book are damaged on their way.")?;
    tell_cases(rt, &DAMAGED, book, &mut held)?;
    println!(rt;
        "In nine more the check sum was made right again, so that the fault behind it shows."
    )?;
    tell_cases(rt, &FORGED, book, &mut held)?;
    let verdict = if held.same(plan) {
        "still the same"
    } else {
        "another one"
    };
    println!(rt; "After all that the terminal's plan is {verdict}.")
}

fn tell_cases(
    rt: &HostRuntime,
    cases: &[Case],
    book: &[u8; 512],
    held: &mut Plan,
) -> io::Result<()> {
    for case in cases {
        tell(rt, case.story, read_damaged(book, case.damage, held))?;
    }
    Ok(())
}

// Reads a damaged copy of the book into the plan.
fn read_damaged(book: &[u8; 512], damage: Damage, plan: &mut Plan) -> Result<(), BookFault> {
    let mut copy = *book;
    match damage {
        Damage::Cut(length) => read(copy.get(0..length).unwrap_or(&[]), plan),
        Damage::Flipped(at) => {
            if let Some(byte) = copy.get_mut(at) {
                *byte ^= 1;
            }
            read(&copy, plan)
        }
        Damage::Forged(at, value) => {
            if let Some(byte) = copy.get_mut(at) {
                *byte = value;
            }
            mend(&mut copy);
            read(&copy, plan)
        }
    }
}
