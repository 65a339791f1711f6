// Plans and books that the tests use.
use plan::draft::Draft;
use plan::fault::{Account, Layer, Place, PlanFault};
use plan::plan::Plan;
use std::process::Abort;
use std::test::Fail;

pub const GOOD: Draft = Draft {
    period: 10,
    deadline: 8,
    work: 3,
    m: 2,
    k: 5,
    speed: 0,
};

// A plan of so many tasks, no two alike, every second one at low speed.
pub fn plan_of(count: u8) -> Result<Plan, PlanFault> {
    let mut plan = Plan::new();
    plan.set_ratio(3, 2)?;
    for i in 0..count {
        let n = u16::from(i);
        plan.add(Draft {
            period: 1000 + n,
            deadline: 700 + n,
            work: 300 + n,
            m: 1 + i % 3,
            k: 3 + i % 30,
            speed: i % 2,
        })?;
    }
    Ok(plan)
}

// Equal in every value, the speeds and the ratio too. A plan has no `==`, since its spare rows would count.
pub fn equal(a: &Plan, b: &Plan) -> bool {
    a.tasks() == b.tasks() && a.ratio() == b.ratio()
}

pub fn account(number: u8, layer: Layer, place: Option<Place>) -> Account {
    Account {
        number,
        layer,
        place,
        overload: None,
    }
}

// The call refused, and this is the account of it.
pub fn refuses<T: Drop, F: Into<Account> + Drop>(
    rt: &impl Abort,
    answer: Result<T, F>,
    said: Account,
) -> Result<(), Fail> {
    let told: Option<Account> = answer.err().map(F::into);
    assert_eq!(rt; told, Some(said));
    Ok(())
}

// The call on the plan refused with this account, and left the plan as it was.
pub fn refuses_and_keeps<T: Drop, F: Into<Account> + Drop, C: FnOnce(&mut Plan) -> Result<T, F>>(
    rt: &impl Abort,
    before: Plan,
    said: Account,
    call: C,
) -> Result<(), Fail>
    requires { C.IsAlwaysCallable call }
{
    let mut plan = before;
    refuses(rt, call(&mut plan), said)?;
    assert!(rt; equal(&plan, &before));
    Ok(())
}

// Whether the words of a block add up to zero, found in another way than the library's: byte by byte.
pub fn adds_up(block: &[u8; 512]) -> bool {
    let weights = [1u32, 1 << 8, 1 << 16, 1 << 24];
    let sum = block
        .iter()
        .zip(weights.iter().cycle())
        .fold(0u32, |sum, (byte, weight)| {
            sum.wrapping_add(u32::from(*byte).wrapping_mul(*weight))
        });
    sum == 0
}
