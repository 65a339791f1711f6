// Plans: tasks out of bounds, a full plan, ratios, the work of a job, and which plans are the same.
use super::samples::{GOOD, account, plan_of, refuses_and_keeps};
use plan::draft::Draft;
use plan::fault::{Layer, Place};
use plan::plan::Plan;
use std::process::Abort;
use std::test::Fail;

// Adding the draft to a plan of two tasks is refused with this number, and the plan stays.
fn refused(rt: &impl Abort, draft: Draft, number: u8) -> Result<(), Fail> {
    let said = account(number, Layer::Record, Some(Place::Task(2)));
    refuses_and_keeps(rt, plan_of(2)?, said, |plan| plan.add(draft))
}

#[test]
fn numbers_out_of_bounds(rt: HostRuntime) -> Result<(), Fail> {
    refused(&rt, Draft { period: 0, ..GOOD }, 7)?;
    refused(
        &rt,
        Draft {
            deadline: 0,
            ..GOOD
        },
        8,
    )?;
    refused(
        &rt,
        Draft {
            deadline: 11,
            ..GOOD
        },
        8,
    )?;
    refused(&rt, Draft { work: 0, ..GOOD }, 9)?;
    refused(&rt, Draft { work: 9, ..GOOD }, 9)?;
    refused(&rt, Draft { m: 0, ..GOOD }, 10)?;
    refused(&rt, Draft { m: 6, ..GOOD }, 10)?;
    refused(&rt, Draft { k: 33, ..GOOD }, 10)?;
    refused(&rt, Draft { speed: 2, ..GOOD }, 11)?;
    refused(
        &rt,
        Draft {
            period: 0,
            speed: 9,
            ..GOOD
        },
        7,
    )
}

#[test]
fn a_full_plan(rt: HostRuntime) -> Result<(), Fail> {
    let said = account(17, Layer::Plan, Some(Place::Task(30)));
    refuses_and_keeps(&rt, plan_of(30)?, said, |plan| {
        plan.add(Draft { period: 0, ..GOOD })
    })
}

// The ratio is taken as it is given.
fn taken(rt: &impl Abort, p: u8, q: u8) -> Result<(), Fail> {
    let mut plan = plan_of(1)?;
    plan.set_ratio(p, q)?;
    assert!(rt; plan.ratio().p == p && plan.ratio().q == q);
    Ok(())
}

// The ratio is out of range, and the plan keeps its own.
fn out_of_range(rt: &impl Abort, p: u8, q: u8) -> Result<(), Fail> {
    refuses_and_keeps(rt, plan_of(1)?, account(5, Layer::Plan, None), |plan| {
        plan.set_ratio(p, q)
    })
}

#[test]
fn ratios(rt: HostRuntime) -> Result<(), Fail> {
    taken(&rt, 1, 1)?;
    taken(&rt, 16, 16)?;
    taken(&rt, 16, 1)?;
    out_of_range(&rt, 0, 0)?;
    out_of_range(&rt, 1, 2)?;
    out_of_range(&rt, 17, 1)?;
    out_of_range(&rt, 1, 0)
}

// The work of the one task of a plan with this ratio.
fn work(draft: Draft, p: u8, q: u8) -> Result<u32, Fail> {
    let mut plan = Plan::new();
    plan.set_ratio(p, q)?;
    let number = plan.add(draft)?;
    let Some(task) = plan.task(number) else {
        return Err(Fail::new("no such task"));
    };
    Ok(task.job_work(plan.ratio()))
}

#[test]
fn work_of_a_job(rt: HostRuntime) -> Result<(), Fail> {
    let low = Draft { speed: 1, ..GOOD };
    assert_eq!(rt; work(GOOD, 3, 2)?, 3);
    assert_eq!(rt; work(low, 3, 2)?, 5);
    assert_eq!(rt; work(low, 2, 2)?, 3);
    assert_eq!(rt; work(low, 16, 1)?, 48);
    assert_eq!(rt; work(low, 16, 15)?, 4);
    Ok(())
}

#[test]
fn same_plans(rt: HostRuntime) -> Result<(), Fail> {
    let mut a = plan_of(3)?;
    let mut b = plan_of(3)?;
    assert!(rt; a.same(&b));
    b.set_ratio(2, 1)?;
    assert!(rt; a.same(&b) && b.same(&a));
    a.add(GOOD)?;
    assert!(rt; !a.same(&b) && !b.same(&a));
    b.add(Draft { speed: 1, ..GOOD })?;
    assert!(rt; a.same(&b) && b.same(&a));
    a.add(GOOD)?;
    b.add(Draft { k: 6, ..GOOD })?;
    assert!(rt; !a.same(&b) && !b.same(&a));
    Ok(())
}
