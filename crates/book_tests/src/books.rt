// Books of every shape: written, read back, written again, and gone through by a cursor.
use super::samples::{account, equal, plan_of, refuses};
use book::cursor::Cursor;
use book::reader::read;
use book::writer::write;
use plan::fault::Layer;
use plan::plan::Plan;
use std::process::Abort;
use std::test::Fail;

// The bytes from a place on that are as they were.
fn kept(bytes: &[u8], from: usize) -> bool {
    bytes.iter().skip(from).all(|byte| *byte == 0xAA)
}

// A plan of so many tasks is written in this many bytes, reads back equal, and is written again alike.
fn round_trip(rt: &impl Abort, count: u8, length: usize) -> Result<(), Fail> {
    let plan = plan_of(count)?;
    let mut bytes = [0xAA; 1100];
    assert_eq!(rt; write(&plan, &mut bytes)?, length);
    assert!(rt; kept(&bytes, length));
    let mut back = Plan::new();
    read(bytes.get(0..length).unwrap_or(&[]), &mut back)?;
    assert!(rt; equal(&plan, &back));
    let mut again = [0xAA; 1100];
    assert_eq!(rt; write(&back, &mut again)?, length);
    assert!(rt; bytes == again);
    Ok(())
}

#[test]
fn round_trips(rt: HostRuntime) -> Result<(), Fail> {
    round_trip(&rt, 0, 512)?;
    round_trip(&rt, 1, 512)?;
    round_trip(&rt, 15, 512)?;
    round_trip(&rt, 16, 1024)?;
    round_trip(&rt, 30, 1024)
}

// A buffer of this length is too short for a plan of so many tasks, and stays as it was.
fn too_short(rt: &impl Abort, count: u8, length: usize) -> Result<(), Fail> {
    let plan = plan_of(count)?;
    let mut bytes = [0xAA; 1100];
    let answer = write(&plan, bytes.get_mut(0..length).unwrap_or(&mut []));
    refuses(rt, answer, account(18, Layer::Book, None))?;
    assert!(rt; kept(&bytes, 0));
    Ok(())
}

#[test]
fn short_buffers(rt: HostRuntime) -> Result<(), Fail> {
    too_short(&rt, 0, 0)?;
    too_short(&rt, 15, 511)?;
    too_short(&rt, 16, 512)?;
    too_short(&rt, 30, 1023)
}

// The records come in turn, each with its block and number, and after the last one nothing.
fn in_turn(rt: &impl Abort, count: u8) -> Result<(), Fail> {
    let plan = plan_of(count)?;
    let mut bytes = [0; 1024];
    let length = write(&plan, &mut bytes)?;
    let mut cursor = Cursor::open(bytes.get(0..length).unwrap_or(&[]))?;
    assert_eq!(rt; cursor.count(), usize::from(count));
    for (number, item) in (0..count).zip(cursor.by_ref()) {
        let number = usize::from(number);
        let at = 512 * (number / 15) + 32 + 32 * (number % 15);
        assert!(rt; item.block == number / 15 && item.number == number % 15);
        assert!(rt; item.bytes.as_slice() == bytes.get(at..at + 32).unwrap_or(&[]));
    }
    assert!(rt; cursor.next().is_none() && cursor.next().is_none() && cursor.next().is_none());
    Ok(())
}

#[test]
fn cursors(rt: HostRuntime) -> Result<(), Fail> {
    in_turn(&rt, 0)?;
    in_turn(&rt, 1)?;
    in_turn(&rt, 15)?;
    in_turn(&rt, 16)?;
    in_turn(&rt, 30)
}
