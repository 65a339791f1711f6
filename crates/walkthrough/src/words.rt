// Turns in words, and what the terminal says to a mistake.
use plan::fault::Account;
use std::{fmt, io};

// On how many turns a task must be served.
#[derive(Drop)]
pub struct Turns {
    pub m: u8,
    pub k: u8,
}

impl fmt::Display for Turns {
    fn fmt<W: fmt::Write>(&self, f: &mut fmt::Formatter<W>) -> fmt::Result {
        let Turns { m, k } = self;
        if m == k {
            write!(f, "on every turn")
        } else {
            write!(f, "on {m} of any {k} turns")
        }
    }
}

// Tells what was tried, and which refusal came, where it was found and what it means.
pub fn tell<T: Drop, F: fmt::Display + Into<Account> + Copy>(
    rt: &HostRuntime,
    story: &str,
    answer: Result<T, F>,
) -> io::Result<()> {
    println!(rt; "{story}")?;
    let Err(fault) = answer else {
        return println!(rt; "  Accepted.");
    };
    let Account {
        number,
        layer,
        place,
        ..
    } = fault.into();
    match place {
        Some(place) => {
            println!(rt; "  Refused with {number} by the {layer} layer, {place}: {fault}.")
        }
        None => println!(rt;
            "  Refused with {number} by the {layer} layer, at no place in particular: {fault}."
        ),
    }
}
