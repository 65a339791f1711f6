// Plans whose refused span starts after 0.
use super::samples::{fast, judged, shifted, slow, span};
use std::test::Fail;

// Of the spans to 15 three are overloaded, from 0, 5 and 10.
#[test]
fn largest_start(rt: HostRuntime) -> Result<(), Fail> {
    let pair = [fast(5, 5, 4, 1, 1), fast(2, 1, 1, 1, 2)];
    judged(&rt, &shifted(0, 1, 0), 1, 1, &pair, span(10, 15, 6))
}

// The first job released is late at 8, and another one already at 3.
#[test]
fn smallest_end(rt: HostRuntime) -> Result<(), Fail> {
    let pair = [slow(8, 8, 8, 1, 1), slow(2, 1, 1, 1, 2)];
    judged(&rt, &shifted(0, 1, 0), 2, 1, &pair, span(2, 3, 2))
}

#[test]
fn far_into_the_cycle(rt: HostRuntime) -> Result<(), Fail> {
    let pair = [fast(7, 5, 5, 1, 4), fast(2, 1, 1, 1, 1)];
    judged(&rt, &shifted(1, 1, 0), 1, 1, &pair, span(21, 26, 7))?;
    let pair = [fast(8, 4, 2, 2, 4), fast(5, 3, 3, 1, 2)];
    judged(&rt, &shifted(0, 3, 0), 1, 1, &pair, span(64, 68, 5))?;
    let pair = [fast(7, 3, 2, 2, 2), fast(9, 3, 3, 1, 4)];
    judged(&rt, &shifted(2, 2, 0), 1, 1, &pair, span(90, 94, 5))
}

#[test]
fn three_tasks(rt: HostRuntime) -> Result<(), Fail> {
    let three = [
        fast(9, 4, 2, 1, 4),
        fast(4, 3, 3, 1, 2),
        fast(5, 4, 1, 2, 2),
    ];
    judged(&rt, &shifted(1, 0, 3), 1, 1, &three, span(63, 67, 5))?;
    let three = [
        fast(8, 1, 1, 3, 3),
        fast(7, 4, 3, 1, 2),
        slow(9, 5, 1, 1, 3),
    ];
    judged(&rt, &shifted(2, 3, 0), 5, 4, &three, span(189, 194, 6))
}
