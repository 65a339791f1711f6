// Writing a plan as a book.
ghost use Rattle.std.specs.Prelude.{◌≡◌, ◌+◌, ◌*◌, ◌++◌, length, take, replicate, IfOk};
ghost use Rattle.std.specs.List.{slice_get};
ghost use Rattle.plan.specs.Refusals.{answer, left};
ghost use Rattle.plan.specs.TaskSet.{task_set, parameters};
ghost use Rattle.book.specs.RoundTrip.{ReadsAs};
ghost use Rattle.book.specs.Seats.{place, blocks};
ghost use Rattle.book.specs.Writing.{over, record_bytes, slot, head_of, block_bytes, blocks_for, encoded, write_fault};

use super::block::{BLOCK, RECORD, RECORDS, Seat, mend};
use super::fault::BookFault;
use plan::plan::Plan;
use plan::task::Task;

// The record of a task.
#[tactic(auto, unfolding(crate::specs::Writing::record_bytes))]
fn record_bytes(task: &Task) -> [u8; RECORD]
    ensures { result ≡ record_bytes (parameters task.now) }
{
    let mut bytes = [0; RECORD];
    bytes[0..2].copy_from_slice(&task.period.to_le_bytes());
    bytes[2..4].copy_from_slice(&task.deadline.to_le_bytes());
    bytes[4..6].copy_from_slice(&task.work.to_le_bytes());
    bytes[6] = task.m;
    bytes[7] = task.k;
    bytes[8] = u8::from(task.speed);
    bytes
}

// The record of the task with that number, or an unused one.
fn slot_bytes(plan: &Plan, number: usize) -> [u8; RECORD]
    ensures { result ≡ slot (slice_get (task_set plan.now).tasks number) }
{
    match plan.task(number) {
        Some(task) => record_bytes(&task),
        None => [0; RECORD],
    }
}

// The first 32 bytes of a block, with zero in the place of the check.
fn head_bytes(plan: &Plan, seat: Seat) -> [u8; RECORD]
    ensures { result ≡ head_of (task_set plan.now) (place seat) (blocks seat) ++ replicate 4 0 }
{
    let used = RECORDS.min(plan.len().saturating_sub(seat.first_record()));
    let mut bytes = [0; RECORD];
    bytes[0] = 1;
    bytes[1] = seat.place();
    bytes[2] = seat.blocks();
    bytes[3] = used as u8;
    if let Seat::Lone | Seat::First = seat {
        bytes[4] = plan.ratio().p;
        bytes[5] = plan.ratio().q;
    }
    bytes
}

// Makes one block of a plan's book, over what stands in its place.
fn put_block(plan: &Plan, seat: Seat, block: &mut [u8; BLOCK])
    ensures { block.new ≡ block_bytes (task_set plan.now) (place seat) (blocks seat) }
{
    let first = seat.first_record();
    let mut records = [[0; RECORD]; RECORDS];
    for (number, record) in records.iter_mut().enumerate() {
        *record = slot_bytes(plan, first + number);
    }
    block[..RECORD].copy_from_slice(&head_bytes(plan, seat));
    block[RECORD..].copy_from_slice(records.as_flattened());
    mend(block);
}

// Writes the plan as a book and answers its length: 512 bytes for up to 15 tasks, and else 1,024.
// The buffer is the caller's, since the core of the terminal has no heap.
pub fn write(plan: &Plan, buffer: &mut [u8]) -> Result<usize, BookFault>
    ensures answer { result ≡ answer (write_fault (task_set plan.now) (length buffer.old)) (512 * blocks_for (task_set plan.now)) }
    ensures after { buffer.new ≡ left (write_fault (task_set plan.now) (length buffer.old)) (over buffer.old 0 (encoded (task_set plan.now))) buffer.old }
    ensures reads_back { IfOk result (λ n. ReadsAs (take n buffer.new) (task_set plan.now)) }
{
    if plan.len() <= RECORDS {
        let block = buffer.first_chunk_mut().ok_or(BookFault::Buffer)?;
        put_block(plan, Seat::Lone, block);
        return Ok(BLOCK);
    }
    let Some((first, rest)) = buffer.split_first_chunk_mut() else {
        return Err(BookFault::Buffer);
    };
    let second = rest.first_chunk_mut().ok_or(BookFault::Buffer)?;
    put_block(plan, Seat::First, first);
    put_block(plan, Seat::Second, second);
    Ok(2 * BLOCK)
}
