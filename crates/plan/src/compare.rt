// Whether two plans are the same: equally many tasks, and the same numbers task by task.
// Neither the speeds nor the ratio count.
ghost use Rattle.std.specs.Prelude.{◌≡◌, ◌↔◌, IsTrue};
ghost use Rattle.plan.specs.TaskSet.{Same, task_set, parameters, timing, timed};

use super::plan::Plan;
use super::task::Task;

impl Task {
    // What two tasks must share to be the same: everything but the speed.
    fn timing(&self) -> (u16, u16, u16, u8, u8)
        ensures { timed result ≡ timing (parameters self.now) }
    {
        (self.period, self.deadline, self.work, self.m, self.k)
    }
}

impl Plan {
    pub fn same(&self, other: &Plan) -> bool
        ensures { IsTrue result ↔ Same (task_set self.now) (task_set other.now) }
    {
        self.len() == other.len()
            && self
                .tasks()
                .iter()
                .zip(other.tasks())
                .all(|(a, b)| a.timing() == b.timing())
    }
}
