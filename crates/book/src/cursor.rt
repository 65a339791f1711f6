// Going through a book record by record, without copying it.
ghost use Rattle.std.specs.Prelude.{◌≡◌, ◌-◌, OnOk};
ghost use Rattle.std.specs.Iterator.{at_most};
ghost use Rattle.std.specs.Result as results;
ghost use Rattle.plan.specs.Refusals.{answer};
ghost use Rattle.book.specs.Cursors.{walk, begun, InOrder, Steps};
ghost use Rattle.book.specs.Reading.{open_fault};

use super::block::{BLOCK, RECORD, RECORDS, check_blocks};
use super::fault::BookFault;

// A book and the number of the record to hand out next, counted on over its blocks.
// It keeps the bytes as they are, opened or not, and holds no invariant: each step tests its place.
#[derive(Clone, Copy)]
pub struct Cursor<'a> {
    book: &'a [u8],
    place: usize,
}

// The 32 bytes of a record where they stand in the book, with its block and its number in that block.
#[derive(Clone, Copy)]
pub struct Record<'a> {
    pub bytes: &'a [u8; RECORD],
    pub block: usize,
    pub number: usize,
}

impl<'a> Cursor<'a> {
    // Opens a book that passes the checks of its length and its blocks.
    #[tactic(auto, using(crate::proofs::Walked::in_order))]
    pub fn open(book: &'a [u8]) -> Result<Cursor<'a>, BookFault>
        ensures answer { results.result_map_both walk (λ e. e) result ≡ answer (open_fault book.now) (begun book.now) }
        ensures run { OnOk result (InOrder book.now) }
    {
        check_blocks(book)?;
        Ok(Cursor { book, place: 0 })
    }
}

// A block is read as 16 rows of 32 bytes: its head and 15 records.
impl<'a> Iterator for Cursor<'a> {
    type Item = Record<'a>;

    ghost next_gives = { Steps };

    ghost remaining = { λ cursor. at_most (30 - cursor.place) };

    // The next record, or nothing after the last.
    fn next(&mut self) -> Option<Record<'a>> {
        let place = self.place;
        if place >= 2 * RECORDS {
            return None;
        }
        let (block, number) = (place / RECORDS, place % RECORDS);
        let (blocks, _) = self.book.as_chunks::<BLOCK>();
        let bytes = blocks.get(block)?;
        if number >= usize::from(bytes[3]) {
            return None;
        }
        let (rows, _) = bytes.as_chunks::<RECORD>();
        self.place = place + 1;
        Some(Record {
            bytes: &rows[1 + number],
            block,
            number,
        })
    }
}
