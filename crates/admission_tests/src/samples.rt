// Plans, policies and verdicts that the tests use.
use admission::admit::admit;
use admission::fault::StartFault;
use pattern::policy::Pattern;
use pattern::shifted::Shifted;
use plan::draft::Draft;
use plan::fault::{Overload, PlanFault};
use plan::plan::Plan;
use std::process::Abort;
use std::test::Fail;

// A task (T,D,C,m,k) at high speed.
pub fn fast(period: u16, deadline: u16, work: u16, m: u8, k: u8) -> Draft {
    Draft {
        period,
        deadline,
        work,
        m,
        k,
        speed: 0,
    }
}

// The same at low speed.
pub fn slow(period: u16, deadline: u16, work: u16, m: u8, k: u8) -> Draft {
    Draft {
        speed: 1,
        ..fast(period, deadline, work, m, k)
    }
}

// A plan of these tasks with the ratio p/q.
pub fn geared(p: u8, q: u8, drafts: &[Draft]) -> Result<Plan, PlanFault> {
    let mut plan = Plan::new();
    plan.set_ratio(p, q)?;
    for draft in drafts {
        plan.add(*draft)?;
    }
    Ok(plan)
}

// The policy Shifted with these shifts of tasks 0, 1 and 2.
pub fn shifted(first: u8, second: u8, third: u8) -> Shifted {
    let mut shifts = [0; 30];
    shifts[0] = first;
    shifts[1] = second;
    shifts[2] = third;
    Shifted::new(shifts)
}

// The refusal of a span, with its work.
pub fn span(start: u32, end: u32, work: u32) -> Result<u32, StartFault> {
    Err(StartFault::Overloaded(Overload { start, end, work }))
}

// The verdict on the plan of these tasks with the ratio p/q is this one.
pub fn judged<P: Pattern>(
    rt: &impl Abort,
    policy: &P,
    p: u8,
    q: u8,
    drafts: &[Draft],
    said: Result<u32, StartFault>,
) -> Result<(), Fail> {
    let plan = geared(p, q, drafts)?;
    assert_eq!(rt; admit(policy, &plan), said);
    Ok(())
}
