// The cycle of a plan under a policy: the least common multiple of period × length over its tasks.
ghost use Rattle.std.specs.Prelude.{◌≡◌, ◌*◌, ◌<◌, if◌then◌else◌, Some, None, nat_lt};
ghost use Rattle.plan.specs.TaskSet.{task_set};
ghost use Rattle.edf.specs.Admission.{cycle_of};
ghost use Rattle.edf.specs.Cycle.{gcd_in, lcm};

use pattern::policy::Pattern;
use plan::task::Task;
use service::workload::Workload;

// The longest cycle that is admitted, in ticks.
const LIMIT: u64 = 1_048_576;

// The cycle, or nothing if it is above the limit: a value so far above the limit decides.
pub(crate) fn cycle<P: Pattern>(load: &Workload<P>) -> Option<u32>
    ensures { result ≡ (if nat_lt 1048576 (cycle_of (task_set load.now.plan.now) (P.meaning load.now.policy.now)) then None else Some (cycle_of (task_set load.now.plan.now) (P.meaning load.now.policy.now))) }
{
    let mut so_far = 1;
    for (number, task) in load.plan.tasks().iter().enumerate() {
        so_far = lcm(so_far, repetition(load.policy, number, task))?;
    }
    Some(so_far)
}

// The ticks after which the releases and marks of the task repeat.
fn repetition<P: Pattern>(policy: &P, number: usize, task: &Task) -> u32
    ensures { result ≡ task.now.period * (P.meaning policy.now).length number task.now.m task.now.k }
{
    u32::from(task.period) * u32::from(policy.length(number, task.m, task.k))
}

// The least common multiple, or nothing if it is above the limit.
fn lcm(a: u32, b: u32) -> Option<u32>
    requires { 0 < a }
    ensures { result ≡ (if nat_lt 1048576 (lcm a b) then None else Some (lcm a b)) }
{
    let multiple = u64::from(a / gcd(a, b)) * u64::from(b);
    if multiple > LIMIT {
        return None;
    }
    Some(multiple as u32)
}

// The greatest common divisor, by Euclid's rule.
fn gcd(a: u32, b: u32) -> u32
    ensures { result ≡ gcd_in b a b }
{
    let mut big = a;
    let mut small = b;
    while small > 0 {
        (big, small) = (small, big % small);
    }
    big
}
