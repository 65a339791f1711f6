// Making a plan and looking into it: the number of tasks, all of them, one by its number, the ratio.
ghost use Rattle.std.specs.Prelude.{◌≡◌, ◌≤◌, length, map};
ghost use Rattle.std.specs.Option.{option_map};
ghost use Rattle.std.specs.List.{slice_get};
ghost use Rattle.plan.specs.TaskSet.{task_set, empty, parameters, job_work};

use super::plan::Plan;
use super::task::{Ratio, Speed, Task};

impl Task {
    // The work of one job in ticks: `work` at high speed, and at low speed as much longer as the ratio says,
    // rounded up.
    pub fn job_work(&self, ratio: Ratio) -> u32
        ensures { result ≡ job_work ratio.p ratio.q (parameters self.now) }
    {
        let fast = u32::from(self.work);
        match self.speed {
            Speed::High => fast,
            Speed::Low => (fast * u32::from(ratio.p)).div_ceil(u32::from(ratio.q)),
        }
    }
}

impl Plan {
    pub fn new() -> Plan
        ensures { task_set result ≡ empty }
    {
        let spare = Task {
            period: 1,
            deadline: 1,
            work: 1,
            m: 1,
            k: 1,
            speed: Speed::High,
        };
        Plan {
            rows: [spare; 30],
            count: 0,
            ratio: Ratio { p: 1, q: 1 },
        }
    }

    // The number of tasks, at most 30.
    pub fn len(&self) -> usize
        ensures answer { result ≡ length (task_set self.now).tasks }
        ensures few { result ≤ 30 }
    {
        self.count
    }

    // The tasks in the order of their numbers.
    pub fn tasks(&self) -> &[Task]
        ensures { map parameters result.now ≡ (task_set self.now).tasks }
    {
        &self.rows[..self.count]
    }

    // The task with that number.
    pub fn task(&self, number: usize) -> Option<Task>
        ensures { option_map parameters result ≡ slice_get (task_set self.now).tasks number }
    {
        self.tasks().get(number).copied()
    }

    pub fn ratio(&self) -> Ratio
        ensures p { result.p ≡ (task_set self.now).p }
        ensures q { result.q ≡ (task_set self.now).q }
    {
        self.ratio
    }
}
