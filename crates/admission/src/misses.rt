// The first deadline that the run of a plan misses.
ghost use Rattle.plan.specs.TaskSet.{task_set};
ghost use Rattle.edf.specs.Plans.{system};
ghost use Rattle.admission.specs.Searches.{FirstMiss};

use pattern::policy::Pattern;
use service::backlog::Backlog;
use service::workload::Workload;

// The first tick of the cycle that reports a task late, its end included: a deadline missed there shows only then.
pub(crate) fn first_miss<P: Pattern>(load: &Workload<P>, cycle: u32) -> Option<u32>
    ensures { FirstMiss (system (task_set load.now.plan.now) (P.meaning load.now.policy.now)) cycle result }
{
    let mut backlog = Backlog::cleared();
    for tick in 0..=cycle {
        if backlog.tick(load, tick).late != 0 {
            return Some(tick);
        }
    }
    None
}
