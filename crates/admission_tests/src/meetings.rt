// The worked meetings, and the classic mistakes that a small plan shows.
use super::samples::{fast, judged, shifted, slow, span};
use pattern::even::Even;
use pattern::red::Red;
use std::test::Fail;

// Where k is 1 the policies mark the same jobs.
#[test]
fn every_job_mandatory(rt: HostRuntime) -> Result<(), Fail> {
    let six = [fast(3, 2, 1, 1, 1), fast(6, 6, 3, 1, 1)];
    judged(&rt, &Even, 1, 1, &six, Ok(6))?;
    judged(&rt, &Red, 1, 1, &six, Ok(6))?;
    judged(&rt, &shifted(9, 4, 0), 1, 1, &six, Ok(6))?;
    let four = [fast(2, 2, 1, 1, 1), fast(4, 4, 2, 1, 1)];
    judged(&rt, &Even, 1, 1, &four, Ok(4))?;
    let more = [fast(2, 2, 1, 1, 1), fast(4, 4, 3, 1, 1)];
    judged(&rt, &Even, 1, 1, &more, span(0, 4, 5))?;
    judged(&rt, &Red, 1, 1, &more, span(0, 4, 5))
}

#[test]
fn one_job_in_two(rt: HostRuntime) -> Result<(), Fail> {
    let halves = [fast(4, 4, 2, 1, 2), fast(4, 4, 3, 1, 2)];
    judged(&rt, &Even, 1, 1, &halves, span(0, 4, 5))?;
    judged(&rt, &Red, 1, 1, &halves, span(0, 4, 5))?;
    judged(&rt, &shifted(0, 1, 0), 1, 1, &halves, Ok(8))?;
    judged(&rt, &shifted(1, 1, 0), 1, 1, &halves, span(4, 8, 5))
}

// The fraction of the work counts; a deadline at the end of the cycle shows only there.
#[test]
fn low_speed(rt: HostRuntime) -> Result<(), Fail> {
    judged(&rt, &Even, 3, 2, &[slow(5, 5, 3, 1, 1)], Ok(5))?;
    judged(&rt, &Even, 3, 2, &[slow(5, 4, 3, 1, 1)], span(0, 4, 5))?;
    judged(&rt, &Even, 5, 4, &[slow(4, 4, 4, 1, 1)], span(0, 4, 5))
}

#[test]
fn equal_tasks(rt: HostRuntime) -> Result<(), Fail> {
    let twice = [fast(2, 1, 1, 1, 1), fast(2, 1, 1, 1, 1)];
    judged(&rt, &Even, 1, 1, &twice, span(0, 1, 2))?;
    let pair = [fast(2, 2, 1, 1, 1), fast(2, 2, 1, 1, 1)];
    judged(&rt, &Even, 1, 1, &pair, Ok(2))
}
