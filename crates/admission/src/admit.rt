// The verdict on a plan under a policy.
ghost use Rattle.std.specs.Prelude.{◌≡◌, ◌≤◌};
ghost use Rattle.std.specs.Option as options;
ghost use Rattle.plan.specs.TaskSet.{task_set};
ghost use Rattle.edf.specs.Admission.{cycle_of};
ghost use Rattle.edf.specs.Plans.{system};
ghost use Rattle.edf.specs.Refusal.{refused};
ghost use Rattle.admission.specs.Judgement.{Right};
ghost use Rattle.admission.specs.Verdicts.{verdict, overload_of};

use super::cycle::cycle;
use super::fault::StartFault;
use super::misses::first_miss;
use super::spans::last_overload;
use pattern::policy::Pattern;
use plan::fault::Overload;
use plan::plan::Plan;
use service::workload::Workload;

// The cycle of the plan in ticks, if some timetable serves every mandatory job; else why there is none.
pub fn admit<P: Pattern>(policy: &P, plan: &Plan) -> Result<u32, StartFault>
    ensures defined { result ≡ verdict (task_set plan.now) (P.meaning policy.now) }
    ensures right { Right (task_set plan.now) (P.meaning policy.now) result }
{
    let load = Workload { plan, policy };
    let cycle = cycle(&load).ok_or(StartFault::TooLong)?;
    match overload(&load, cycle) {
        Some(span) => Err(StartFault::Overloaded(span)),
        None => Ok(cycle),
    }
}

// The overloaded span that a refusal carries, if there is one: runs one cycle of the plan, and looks for the span where
// that meets a late task.
fn overload<P: Pattern>(load: &Workload<P>, cycle: u32) -> Option<Overload>
    requires cycle { cycle ≡ cycle_of (task_set load.now.plan.now) (P.meaning load.now.policy.now) }
    requires short { cycle ≤ 1048576 }
    ensures { result ≡ options.option_map (overload_of (task_set load.now.plan.now) (P.meaning load.now.policy.now)) (refused (system (task_set load.now.plan.now) (P.meaning load.now.policy.now)) cycle) }
{
    let end = first_miss(load, cycle)?;
    last_overload(load, end)
}
