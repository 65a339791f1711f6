// A plan under a policy, and the jobs that it releases.
ghost use Rattle.std.specs.Prelude.{◌≡◌, ◌/◌, ◌%◌, ◌&&◌, ◌==◌};
ghost use Rattle.pattern.specs.Policy.{mandatory};
ghost use Rattle.plan.specs.TaskSet.{task_set, parameters};
ghost use Rattle.service.specs.Rows.{released_job, job_of};

use super::backlog::Pending;
use pattern::policy::Pattern;
use plan::plan::Plan;
use plan::task::Task;

// The tasks of the plan, and the policy that says which of their jobs are mandatory. There is no model: its value could
// not hold the policy's meaning, which is functions.
#[derive(Drop)]
pub struct Workload<'a, P> {
    pub plan: &'a Plan,
    pub policy: &'a P,
}

impl<P: Pattern> Workload<'_, P> {
    // The job that the task with that number releases at the tick, with all its work and ticks, or none: there is no
    // such task, its period does not divide the tick, or the policy does not mark the job.
    pub fn released_job(&self, number: usize, tick: u32) -> Option<Pending>
        ensures { result ≡ released_job (task_set self.now.plan.now) (P.meaning self.now.policy.now) number tick }
    {
        let task = self.plan.task(number)?;
        self.job_of(number, &task, tick)
    }

    // The same for a task at hand, as the task with that number.
    pub fn job_of(&self, number: usize, task: &Task, tick: u32) -> Option<Pending>
        ensures { result ≡ job_of (task_set self.now.plan.now) (P.meaning self.now.policy.now) number (parameters task.now) tick }
    {
        self.releases(number, task, tick).then(|| Pending {
            work: task.job_work(self.plan.ratio()),
            ticks: task.deadline,
        })
    }

    // Whether the task releases a mandatory job at the tick: job tick / T, if T divides the tick.
    fn releases(&self, number: usize, task: &Task, tick: u32) -> bool
        ensures { result ≡ (tick % task.now.period == 0 && mandatory (P.meaning self.now.policy.now) number task.now.m task.now.k (tick / task.now.period)) }
    {
        let period = u32::from(task.period);
        tick % period == 0 && self.policy.mark(number, task.m, task.k, tick / period)
    }
}
