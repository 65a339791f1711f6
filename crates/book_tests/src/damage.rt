// Damaged books: each check of a book with the place where it fails, halves of books, and flipped bits.
use super::samples::{account, adds_up, plan_of, refuses_and_keeps};
use book::block::mend;
use book::reader::read;
use book::writer::write;
use plan::fault::{Layer, Place};
use std::process::Abort;
use std::test::Fail;

// Some bytes of a book, and what reading the book is refused with once they stand there.
#[derive(Clone, Copy)]
struct Forgery {
    at: usize,
    bytes: &'static [u8],
    number: u8,
    place: Place,
}

const fn forge(at: usize, bytes: &'static [u8], number: u8, place: Place) -> Forgery {
    Forgery {
        at,
        bytes,
        number,
        place,
    }
}

// Reading these bytes is refused so, and the plan that it was to fill stays as it was.
fn refused(rt: &impl Abort, bytes: &[u8], number: u8, place: Option<Place>) -> Result<(), Fail> {
    let layer = match place {
        Some(Place::Record(_, _)) => Layer::Record,
        _ => Layer::Book,
    };
    refuses_and_keeps(rt, plan_of(3)?, account(number, layer, place), |plan| {
        read(bytes, plan)
    })
}

fn overwrite(book: &mut [u8], at: usize, bytes: &[u8]) {
    for (place, byte) in book.iter_mut().skip(at).zip(bytes) {
        *place = *byte;
    }
}

// A book of 16 tasks, in two blocks, with these bytes in it and its sums made right again; and then, if so told, one
// byte more that is wrong.
fn forged_and_damaged(
    rt: &impl Abort,
    forgery: Forgery,
    damaged: Option<usize>,
) -> Result<(), Fail> {
    let mut book = [0; 1024];
    write(&plan_of(16)?, &mut book)?;
    overwrite(&mut book, forgery.at, forgery.bytes);
    for block in book.as_chunks_mut::<512>().0 {
        mend(block);
        assert!(rt; adds_up(block));
    }
    if let Some(at) = damaged {
        overwrite(&mut book, at, &[0xFF]);
    }
    refused(rt, &book, forgery.number, Some(forgery.place))
}

// The same and nothing more.
fn forged(rt: &impl Abort, forgery: Forgery) -> Result<(), Fail> {
    forged_and_damaged(rt, forgery, None)
}

#[test]
fn blocks(rt: HostRuntime) -> Result<(), Fail> {
    forged(&rt, forge(0, &[2], 3, Place::Block(0)))?;
    forged(&rt, forge(513, &[0], 3, Place::Block(1)))?;
    forged(&rt, forge(514, &[1], 3, Place::Block(1)))?;
    forged(&rt, forge(3, &[14], 4, Place::Block(0)))?;
    forged(&rt, forge(515, &[0], 4, Place::Block(1)))?;
    forged(&rt, forge(515, &[16], 4, Place::Block(1)))?;
    forged(&rt, forge(4, &[17], 5, Place::Block(0)))?;
    forged(&rt, forge(4, &[1], 5, Place::Block(0)))?;
    forged(&rt, forge(516, &[1], 5, Place::Block(1)))?;
    forged(&rt, forge(6, &[1], 6, Place::Block(0)))?;
    forged(&rt, forge(539, &[1], 6, Place::Block(1)))?;
    forged(&rt, forge(576, &[1], 6, Place::Block(1)))?;
    forged(&rt, forge(1023, &[1], 6, Place::Block(1)))
}

#[test]
fn records(rt: HostRuntime) -> Result<(), Fail> {
    forged(&rt, forge(32, &[0, 0], 7, Place::Record(0, 0)))?;
    forged(&rt, forge(544, &[0, 0], 7, Place::Record(1, 0)))?;
    forged(&rt, forge(34, &[0, 0], 8, Place::Record(0, 0)))?;
    forged(&rt, forge(482, &[255, 255], 8, Place::Record(0, 14)))?;
    forged(&rt, forge(36, &[0, 0], 9, Place::Record(0, 0)))?;
    forged(&rt, forge(68, &[255, 255], 9, Place::Record(0, 1)))?;
    forged(&rt, forge(38, &[0], 10, Place::Record(0, 0)))?;
    forged(&rt, forge(38, &[9], 10, Place::Record(0, 0)))?;
    forged(&rt, forge(39, &[33], 10, Place::Record(0, 0)))?;
    forged(&rt, forge(40, &[2], 11, Place::Record(0, 0)))?;
    forged(&rt, forge(41, &[1], 11, Place::Record(0, 0)))?;
    forged(&rt, forge(575, &[1], 11, Place::Record(1, 0)))
}

#[test]
fn blocks_before_records(rt: HostRuntime) -> Result<(), Fail> {
    // a reserved byte of block 0, then the sum of block 1, then a record of block 0
    forged_and_damaged(&rt, forge(6, &[1], 6, Place::Block(0)), Some(1000))?;
    forged_and_damaged(&rt, forge(32, &[0, 0], 2, Place::Block(1)), Some(1000))
}

// Several checks fail, and the first of them is told.
#[test]
fn sequence_of_checks(rt: HostRuntime) -> Result<(), Fail> {
    forged(&rt, forge(0, &[2, 9, 9, 99, 0, 0, 1], 3, Place::Block(0)))?;
    forged(&rt, forge(3, &[99, 0, 0, 1], 4, Place::Block(0)))?;
    forged(&rt, forge(4, &[0, 0, 1], 5, Place::Block(0)))?;
    forged(
        &rt,
        forge(32, &[0, 0, 0, 0, 0, 0, 0, 0, 9, 9], 7, Place::Record(0, 0)),
    )?;
    forged(
        &rt,
        forge(34, &[0, 0, 0, 0, 0, 0, 9, 9], 8, Place::Record(0, 0)),
    )?;
    forged(&rt, forge(36, &[0, 0, 0, 0, 9, 9], 9, Place::Record(0, 0)))?;
    forged(&rt, forge(38, &[0, 0, 9, 9], 10, Place::Record(0, 0)))?;
    // the speed of record 0 before the period of record 1
    forged(
        &rt,
        forge(
            40,
            &[
                2, 0, 0, 0, 0, 0, 0, 0, 0, 0, 0, 0, 0, 0, 0, 0, 0, 0, 0, 0, 0, 0, 0, 0, 0, 0,
            ],
            11,
            Place::Record(0, 0),
        ),
    )
}

#[test]
fn lengths_and_halves(rt: HostRuntime) -> Result<(), Fail> {
    let mut book = [0; 1025];
    write(&plan_of(16)?, &mut book)?;
    refused(&rt, &[], 1, None)?;
    refused(&rt, &book[0..511], 1, None)?;
    refused(&rt, &book[0..513], 1, None)?;
    refused(&rt, &book[0..1023], 1, None)?;
    refused(&rt, &book, 1, None)?;
    refused(&rt, &book[0..512], 3, Some(Place::Block(0)))?;
    refused(&rt, &book[512..1024], 3, Some(Place::Block(0)))?;
    refused(&rt, &[0; 512], 3, Some(Place::Block(0)))?;
    refused(&rt, &[0; 1024], 3, Some(Place::Block(0)))
}

// Flips one bit of the byte.
fn flip(book: &mut [u8], at: usize) {
    if let Some(byte) = book.get_mut(at) {
        *byte ^= 1 << (at % 8);
    }
}

// One bit of each byte of a book of so many tasks, flipped: its block does not add up.
fn flipped(rt: &impl Abort, count: u8, length: usize) -> Result<(), Fail> {
    let mut room = [0; 1024];
    write(&plan_of(count)?, &mut room)?;
    let book = room.get_mut(0..length).unwrap_or(&mut []);
    // by its place, since the whole book is read while the byte is flipped
    for at in 0..length {
        flip(book, at);
        refused(rt, book, 2, Some(Place::Block(at / 512)))?;
        flip(book, at);
    }
    Ok(())
}

#[test]
fn flipped_bits(rt: HostRuntime) -> Result<(), Fail> {
    flipped(&rt, 15, 512)?;
    flipped(&rt, 30, 1024)
}
