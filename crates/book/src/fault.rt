// Why a book is refused, with what each refusal says.
ghost use Rattle.std.specs.Prelude.{◌≡◌, Some};
ghost use Rattle.book.specs.Refusals.{in_book, book_account, book_reason};

use plan::fault::{Account, Layer, Place, RecordFault};
use std::error::Error;
use std::fmt;

// Each fault of a block carries that block's number.
#[derive(Clone, Copy, PartialEq, Eq, Debug)]
pub enum BookFault {
    // the book is not 512 or 1,024 bytes long
    Length,
    // the words of the block do not add up to 0
    Sum(usize),
    // bytes 0 to 2 are not kind, place and number of blocks
    Head(usize),
    // byte 3 is no number of records for this block
    Count(usize),
    // bytes 4 and 5 are no ratio, or not zero in block 1
    Ratio(usize),
    // bytes 6 to 27 or an unused record are not zero
    Reserved(usize),
    Record(RecordFault),
    // the buffer is shorter than the written book
    Buffer,
}

impl From<RecordFault> for BookFault {
    ghost from_gives = { λ fault r. r ≡ in_book fault };

    fn from(fault: RecordFault) -> BookFault {
        BookFault::Record(fault)
    }
}

impl From<BookFault> for Account {
    ghost from_gives = { λ fault r. r ≡ book_account fault };

    // A variant that carries a value has no number of its own, so the numbers stand here.
    fn from(fault: BookFault) -> Account {
        let (number, place) = match fault {
            BookFault::Length => (1, None),
            BookFault::Sum(block) => (2, Some(Place::Block(block))),
            BookFault::Head(block) => (3, Some(Place::Block(block))),
            BookFault::Count(block) => (4, Some(Place::Block(block))),
            BookFault::Ratio(block) => (5, Some(Place::Block(block))),
            BookFault::Reserved(block) => (6, Some(Place::Block(block))),
            BookFault::Record(fault) => return Account::from(fault),
            BookFault::Buffer => (18, None),
        };
        Account {
            number,
            layer: Layer::Book,
            place,
            overload: None,
        }
    }
}

// The reason of the refusal. Its number and place are in its account.
impl fmt::Display for BookFault {
    ghost output = { λ fault. Some (book_reason fault) };

    fn fmt<W: fmt::Write>(&self, f: &mut fmt::Formatter<W>) -> fmt::Result {
        f.write_str(match self {
            BookFault::Length => "the book is neither 512 nor 1,024 bytes long",
            BookFault::Sum(_) => "the words of the block do not add up to zero",
            BookFault::Head(_) => "the block's kind, its place or the number of blocks is wrong",
            BookFault::Count(_) => "the block cannot have that number of records",
            BookFault::Ratio(_) => "the ratio of the speeds is out of range",
            BookFault::Reserved(_) => "a reserved byte or an unused record is not zero",
            BookFault::Record(fault) => return write!(f, "{fault}"),
            BookFault::Buffer => "the buffer is too short for the book",
        })
    }
}

impl Error for BookFault {}
