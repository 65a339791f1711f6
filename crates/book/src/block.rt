// One block of a book: where it sits, its sum and how it comes out as zero, and its checks.
ghost use Rattle.std.specs.Prelude.{◌≡◌, ◌*◌, ◌%◌, ◌≤◌, not, None};
ghost use Rattle.plan.specs.Checks.{refuse_if};
ghost use Rattle.plan.specs.Refusals.{answer};
ghost use Rattle.book.specs.Bytes.{byte, total, all_zero};
ghost use Rattle.book.specs.Reading.{head_fits, count_fits, ratio_fits, zeros_fault, block_fault, open_fault};
ghost use Rattle.book.specs.Seats.{place, blocks};
ghost use Rattle.book.specs.Writing.{mended};

use super::fault::BookFault;
use plan::task::Ratio;

// Bytes in a block.
pub const BLOCK: usize = 512;
// Records in a block.
pub const RECORDS: usize = 15;
// Bytes in a record, and in the block's head.
pub const RECORD: usize = 32;

// Where a block sits in its book: alone, or as the first or the second of two.
#[derive(Clone, Copy)]
pub(crate) enum Seat {
    Lone,
    First,
    Second,
}

impl Seat {
    // The block's number in its book.
    pub(crate) fn place(self) -> u8
        ensures { result ≡ place self }
    {
        match self {
            Seat::Lone | Seat::First => 0,
            Seat::Second => 1,
        }
    }

    // The number of the block's first record, counted on over the blocks.
    pub(crate) fn first_record(self) -> usize
        ensures { result ≡ 15 * place self }
    {
        RECORDS * usize::from(self.place())
    }

    // How many blocks the book has.
    pub(crate) fn blocks(self) -> u8
        ensures { result ≡ blocks self }
    {
        match self {
            Seat::Lone => 1,
            Seat::First | Seat::Second => 2,
        }
    }
}

// The sum of a block's words, modulo 2^32.
fn sum(block: &[u8; BLOCK]) -> u32
    ensures { result ≡ total block.now 128 % 4294967296 }
{
    let (words, _) = block.as_chunks::<4>();
    words.iter().fold(
        0u32,
        |sum, word| sum.wrapping_add(u32::from_le_bytes(*word)),
    )
}

// Makes the words of a block add up to zero, by the word at byte 28.
pub fn mend(block: &mut [u8; BLOCK])
    ensures word { block.new ≡ mended block.old }
    ensures sum { total block.new 128 % 4294967296 ≡ 0 }
{
    block[28..32].copy_from_slice(&[0; 4]);
    let check = sum(block).wrapping_neg();
    block[28..32].copy_from_slice(&check.to_le_bytes());
}

// Refuses at the first byte that is not zero: by a loop that returns there, which is asked for.
pub(crate) fn expect_zero<E: Copy>(bytes: &[u8], refusal: E) -> Result<(), E>
    ensures { result ≡ answer (refuse_if (not (all_zero bytes.now)) refusal None) tt }
{
    for byte in bytes {
        if *byte != 0 {
            return Err(refusal);
        }
    }
    Ok(())
}

// Kind 1, and then the place and the number of blocks that go with the seat.
fn head_fits(block: &[u8; BLOCK], seat: Seat) -> bool
    ensures { result ≡ head_fits block.now (place seat) (blocks seat) }
{
    block[0] == 1 && block[1] == seat.place() && block[2] == seat.blocks()
}

// How many records a block may have at its seat.
fn count_fits(count: u8, seat: Seat) -> bool
    ensures { result ≡ count_fits count (place seat) (blocks seat) }
{
    match seat {
        Seat::Lone => count <= 15,
        Seat::First => count == 15,
        Seat::Second => 1 <= count && count <= 15,
    }
}

// The ratio stands in the first block, and zero in the second.
fn ratio_fits(p: u8, q: u8, seat: Seat) -> bool
    ensures { result ≡ ratio_fits p q (place seat) }
{
    match seat {
        Seat::Lone | Seat::First => Ratio::new(p, q).is_some(),
        Seat::Second => p == 0 && q == 0,
    }
}

// The checks of a book's length and of its blocks, one after the other.
pub(crate) fn check_blocks(book: &[u8]) -> Result<(), BookFault>
    ensures { result ≡ answer (open_fault book.now) tt }
{
    let (blocks, rest) = book.as_chunks::<BLOCK>();
    if !rest.is_empty() {
        return Err(BookFault::Length);
    }
    match blocks {
        [block] => check_block(block, Seat::Lone),
        [first, second] => {
            check_block(first, Seat::First)?;
            check_block(second, Seat::Second)
        }
        _ => Err(BookFault::Length),
    }
}

// The first check that a block fails at its seat.
#[tactic(auto, unfolding(crate::specs::Reading::block_fault))]
fn check_block(block: &[u8; BLOCK], seat: Seat) -> Result<(), BookFault>
    ensures { result ≡ answer (block_fault block.now (place seat) (blocks seat)) tt }
{
    let place = usize::from(seat.place());
    if sum(block) != 0 {
        return Err(BookFault::Sum(place));
    }
    if !head_fits(block, seat) {
        return Err(BookFault::Head(place));
    }
    if !count_fits(block[3], seat) {
        return Err(BookFault::Count(place));
    }
    if !ratio_fits(block[4], block[5], seat) {
        return Err(BookFault::Ratio(place));
    }
    check_zeros(block, seat)
}

// The bytes of a block that must be zero: 6 to 27, and the records that are not used.
fn check_zeros(block: &[u8; BLOCK], seat: Seat) -> Result<(), BookFault>
    requires { byte block.now 3 ≤ 15 }
    ensures { result ≡ answer (zeros_fault block.now (place seat)) tt }
{
    let refusal = BookFault::Reserved(usize::from(seat.place()));
    let unused = RECORD + RECORD * usize::from(block[3]);
    expect_zero(&block[6..28], refusal)?;
    expect_zero(&block[unused..], refusal)
}
