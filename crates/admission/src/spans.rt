// The overloaded span that a refusal carries: of those that end where the first deadline is missed, the last to start.
ghost use Rattle.std.specs.Prelude.{◌≡◌, ◌≤◌};
ghost use Rattle.plan.specs.TaskSet.{task_set};
ghost use Rattle.edf.specs.Plans.{system};
ghost use Rattle.edf.specs.System.{due};
ghost use Rattle.admission.specs.Searches.{last_overload};

use pattern::policy::Pattern;
use plan::fault::Overload;
use service::workload::Workload;

// The overloaded span to the end that starts last, with its work, if there is one: starts are tried downward, and the
// work grows by what is released there. The end is within the longest cycle, so that the work fits 32 bits.
pub(crate) fn last_overload<P: Pattern>(load: &Workload<P>, end: u32) -> Option<Overload>
    requires { end ≤ 1048576 }
    ensures { result ≡ last_overload (task_set load.now.plan.now) (P.meaning load.now.policy.now) end }
{
    let mut work = 0;
    for start in (0..end).rev() {
        work += due(load, start, end);
        if work > end - start {
            return Some(Overload { start, end, work });
        }
    }
    None
}

// The work released at the tick with a deadline at or before the end.
fn due<P: Pattern>(load: &Workload<P>, tick: u32, end: u32) -> u32
    ensures { result ≡ due (system (task_set load.now.plan.now) (P.meaning load.now.policy.now)) end tick }
{
    load.plan
        .tasks()
        .iter()
        .enumerate()
        .filter_map(|(number, task)| load.job_of(number, task, tick))
        .filter(|job| u64::from(tick) + u64::from(job.ticks) <= u64::from(end))
        .map(|job| job.work)
        .sum()
}
