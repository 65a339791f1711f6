// Reading a book into a plan.
ghost use Rattle.std.specs.Prelude.{◌≡◌, drop, None, OnOk, OnErr};
ghost use Rattle.std.specs.Result.{result_map_both};
ghost use Rattle.plan.specs.Refusals.{answer, left};
ghost use Rattle.plan.specs.Checks.{parameters_of};
ghost use Rattle.plan.specs.TaskSet.{task_set, parameters};
ghost use Rattle.book.specs.Cursors.{walk, begun, place_of};
ghost use Rattle.book.specs.Reading.{draft_of, record_fault, open_fault, first_fault, records, read_fault, decoded, holding};
ghost use Rattle.book.specs.Writing.{encoded};

use super::block::{RECORD, expect_zero};
use super::cursor::{Cursor, Record};
use super::fault::BookFault;
use plan::draft::Draft;
use plan::fault::{Place, RecordError, RecordFault};
use plan::plan::Plan;
use plan::task::{Ratio, Task};

// Takes a record apart into its numbers and the rest: by a pattern on the slice, since one with a rest on the array gets
// no proof.
fn fields(bytes: &[u8; RECORD]) -> (Draft, &[u8])
    ensures numbers { result.0 ≡ draft_of bytes.now }
    ensures rest { result.1.now ≡ drop 9 bytes.now }
{
    let [t0, t1, d0, d1, c0, c1, m, k, speed, rest @ ..] = &bytes[..] else {
        return unreachable();
    };
    let draft = Draft {
        period: u16::from_le_bytes([*t0, *t1]),
        deadline: u16::from_le_bytes([*d0, *d1]),
        work: u16::from_le_bytes([*c0, *c1]),
        m: *m,
        k: *k,
        speed: *speed,
    };
    (draft, rest)
}

// The task of a record, or its first fault.
fn task_of(item: &Record) -> Result<Task, RecordFault>
    ensures { result_map_both parameters (λ e. e) result ≡ answer (record_fault item.now.bytes.now (place_of item.now)) (parameters_of (draft_of item.now.bytes.now)) }
{
    let place = Some(Place::Record(item.block, item.number));
    let (draft, rest) = fields(item.bytes);
    let task = draft.check(place)?;
    let error = RecordError::SpeedOrRest;
    expect_zero(rest, RecordFault { error, place })?;
    Ok(task)
}

// The plan of an opened book with that ratio, or the first fault of its records.
fn collected(cursor: Cursor, ratio: Ratio) -> Result<Plan, RecordFault>
    requires opened { open_fault cursor.book.now ≡ None }
    requires begun { walk cursor ≡ begun cursor.book.now }
    ensures { result_map_both task_set (λ e. e) result ≡ answer (first_fault cursor.entry.book.now (records cursor.entry.book.now)) (holding cursor.entry.book.now ratio.p ratio.q) }
{
    let mut plan = Plan::with_ratio(ratio);
    for item in cursor {
        let task = task_of(&item)?;
        // a book has no more records than a plan has rows
        let _ = plan.append(task);
    }
    Ok(plan)
}

// Reads a book into the plan, or says why it is none and leaves the plan as it is, which only this contract can say.
pub fn read(book: &[u8], plan: &mut Plan) -> Result<(), BookFault>
    ensures answer { result ≡ answer (read_fault book.now) tt }
    ensures after { task_set plan.new ≡ left (read_fault book.now) (decoded book.now) (task_set plan.old) }
    ensures kept { OnErr result (plan.new ≡ plan.old) }
    ensures rewrites { OnOk result (encoded (task_set plan.new) ≡ book.now) }
{
    let cursor = Cursor::open(book)?;
    let ratio = Ratio::new(book[4], book[5]).ok_or(BookFault::Ratio(0))?;
    *plan = collected(cursor, ratio)?;
    Ok(())
}
