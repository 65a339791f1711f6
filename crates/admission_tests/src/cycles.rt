// The empty plan, and cycles at and above the limit.
use super::samples::{fast, judged};
use admission::fault::StartFault;
use pattern::even::Even;
use pattern::red::Red;
use std::test::Fail;

#[test]
fn empty_plan(rt: HostRuntime) -> Result<(), Fail> {
    judged(&rt, &Even, 1, 1, &[], Ok(1))?;
    judged(&rt, &Red, 16, 1, &[], Ok(1))
}

#[test]
fn longest_cycle(rt: HostRuntime) -> Result<(), Fail> {
    judged(&rt, &Even, 1, 1, &[fast(32768, 1, 1, 1, 32)], Ok(1_048_576))
}

// Too long comes first, however plain the overload; the last cycle is a product that exceeds 32 bits.
#[test]
fn too_long(rt: HostRuntime) -> Result<(), Fail> {
    let long = fast(65535, 1, 1, 1, 17);
    judged(&rt, &Even, 1, 1, &[long], Err(StartFault::TooLong))?;
    judged(&rt, &Even, 1, 1, &[long, long], Err(StartFault::TooLong))?;
    let wide = [fast(62793, 1, 1, 1, 3), fast(62699, 1, 1, 1, 4)];
    judged(&rt, &Even, 1, 1, &wide, Err(StartFault::TooLong))
}

// Periods and lengths share their divisors: the cycle is no product.
#[test]
fn common_multiples(rt: HostRuntime) -> Result<(), Fail> {
    let shared = [
        fast(12, 1, 1, 1, 3),
        fast(18, 2, 1, 1, 2),
        fast(9, 3, 1, 2, 4),
    ];
    judged(&rt, &Red, 1, 1, &shared, Ok(36))
}
