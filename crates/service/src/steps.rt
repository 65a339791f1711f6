// The steps of a tick that go over all tasks: each leaves the counters that the definition's step gives.
ghost use Rattle.std.specs.Prelude.{◌≡◌, ℕ};
ghost use Rattle.plan.specs.Bounded.{count};
ghost use Rattle.plan.specs.TaskSet.{TaskSet, task_set};
ghost use Rattle.edf.specs.Plans.{system};
ghost use Rattle.edf.specs.Run.{cleared};
ghost use Rattle.edf.specs.Tick.{late, drop_late, release, age};
ghost use Rattle.service.specs.Answers.{mask};
ghost use Rattle.service.specs.Rows.{view, overdue, SpareKept};

use super::backlog::{Backlog, Pending};
use super::workload::Workload;
use pattern::policy::Pattern;
use plan::plan::Plan;

impl Pending {
    // Nothing is open.
    pub const IDLE: Pending = Pending { work: 0, ticks: 0 };

    // Work is left, and no tick to do it in.
    fn is_late(&self) -> bool
        ensures { result ≡ overdue self.now }
    {
        self.work > 0 && self.ticks == 0
    }
}

impl Backlog {
    // Nothing is open, whatever the plan.
    pub fn cleared() -> Backlog
        ensures { (set : TaskSet) → view set result ≡ cleared }
    {
        Backlog {
            rows: [Pending::IDLE; 30],
        }
    }

    // Step 1: lets go of the work of the late tasks, and answers who they were: bit i for task i.
    pub fn drop_late(&mut self, plan: &Plan) -> u32
        ensures missed { result ≡ mask (count (task_set plan.now)) (late (view (task_set plan.now) self.old)) }
        ensures after { view (task_set plan.now) self.new ≡ drop_late (view (task_set plan.now) self.old) }
        ensures spare { SpareKept (task_set plan.now) self.old self.new }
    {
        let mut missed = 0;
        for (number, row) in self.rows[..plan.len()].iter_mut().enumerate() {
            if row.is_late() {
                row.work = 0;
                missed += 1 << number;
            }
        }
        missed
    }

    // Step 2: opens the jobs that are released at the position, with all their work and ticks. Goes over the rows alone:
    // after a loop over a zip of them with the tasks a proof knows nothing of the rows.
    pub fn release<P: Pattern>(&mut self, load: &Workload<P>, position: u32)
        ensures after { view (task_set load.now.plan.now) self.new ≡ release (system (task_set load.now.plan.now) (P.meaning load.now.policy.now)) position (view (task_set load.now.plan.now) self.old) }
        ensures spare { SpareKept (task_set load.now.plan.now) self.old self.new }
    {
        for (number, row) in self.rows[..load.plan.len()].iter_mut().enumerate() {
            if let Some(job) = load.released_job(number, position) {
                *row = job;
            }
        }
    }

    // Step 4: a task with work left loses one of its ticks left, and every other has none.
    pub fn age(&mut self, plan: &Plan)
        ensures after { view (task_set plan.now) self.new ≡ age (view (task_set plan.now) self.old) }
        ensures spare { SpareKept (task_set plan.now) self.old self.new }
    {
        for row in &mut self.rows[..plan.len()] {
            row.ticks = if row.work > 0 {
                row.ticks.saturating_sub(1)
            } else {
                0
            };
        }
    }
}
