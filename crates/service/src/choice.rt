// Step 3: the task whose deadline comes first is chosen, and served.
ghost use Rattle.std.specs.Prelude.{◌≡◌, ◌<◌, IfSome};
ghost use Rattle.plan.specs.Bounded.{count};
ghost use Rattle.plan.specs.TaskSet.{TaskSet, task_set};
ghost use Rattle.edf.specs.Earliest.{Earliest};
ghost use Rattle.edf.specs.Tick.{choose, serve, ended};
ghost use Rattle.service.specs.Rows.{view, SpareKept};

use super::backlog::Backlog;
use plan::plan::Plan;

impl Backlog {
    // Of the tasks with work left the one with the fewest ticks left, the lowest number first among equals.
    pub fn choose(&self, plan: &Plan) -> Option<usize>
        ensures answer { result ≡ choose (count (task_set plan.now)) (view (task_set plan.now) self.now) }
        ensures earliest { Earliest (count (task_set plan.now)) (view (task_set plan.now) self.now) result }
    {
        self.rows[..plan.len()]
            .iter()
            .enumerate()
            .filter(|(_, row)| row.work > 0)
            .min_by_key(|(_, row)| row.ticks)
            .map(|(number, _)| number)
    }

    // The chosen task, if there is one, gets one tick of its work; whether that used it up.
    pub(crate) fn serve(&mut self, served: Option<usize>) -> bool
        requires row { IfSome served (λ number. number < 30) }
        ensures finished { (tasks : TaskSet) → IfSome served (λ number. number < count tasks) → result ≡ ended served (view tasks self.new) }
        ensures after { (tasks : TaskSet) → view tasks self.new ≡ serve served (view tasks self.old) }
        ensures spare { (tasks : TaskSet) → IfSome served (λ number. number < count tasks) → SpareKept tasks self.old self.new }
    {
        let Some(number) = served else {
            return false;
        };
        let left = self.rows[number].work.saturating_sub(1);
        self.rows[number].work = left;
        left == 0
    }
}
