// One tick of service: its steps in their order.
ghost use Rattle.std.specs.Prelude.{◌≡◌};
ghost use Rattle.plan.specs.Bounded.{count};
ghost use Rattle.plan.specs.TaskSet.{task_set};
ghost use Rattle.edf.specs.Earliest.{Earliest};
ghost use Rattle.edf.specs.Plans.{system};
ghost use Rattle.edf.specs.Tick.{drop_late, release, tick};
ghost use Rattle.service.specs.Answers.{answer_of};
ghost use Rattle.service.specs.Rows.{view, SpareKept};

use super::backlog::Backlog;
use super::ticks::TickAnswer;
use super::workload::Workload;
use pattern::policy::Pattern;

impl Backlog {
    // Lets the late go, releases, serves whose deadline comes first, and ages, at a position in the plan's cycle.
    pub fn tick<P: Pattern>(&mut self, load: &Workload<P>, position: u32) -> TickAnswer
        ensures answer { result ≡ answer_of (count (task_set load.now.plan.now)) (tick (system (task_set load.now.plan.now) (P.meaning load.now.policy.now)) position (view (task_set load.now.plan.now) self.old)) }
        ensures after { view (task_set load.now.plan.now) self.new ≡ (tick (system (task_set load.now.plan.now) (P.meaning load.now.policy.now)) position (view (task_set load.now.plan.now) self.old)).left }
        ensures earliest { Earliest (count (task_set load.now.plan.now)) (release (system (task_set load.now.plan.now) (P.meaning load.now.policy.now)) position (drop_late (view (task_set load.now.plan.now) self.old))) result.served }
        ensures spare { SpareKept (task_set load.now.plan.now) self.old self.new }
    {
        let late = self.drop_late(load.plan);
        self.release(load, position);
        let served = self.choose(load.plan);
        let finished = self.serve(served);
        self.age(load.plan);
        TickAnswer {
            served,
            finished,
            late,
        }
    }
}
