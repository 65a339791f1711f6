// The checks that make a speed of its code and a task of a draft, and the changes of a plan: a task more, another ratio.
ghost use Rattle.std.specs.Prelude.{◌≡◌, ◌<◌, length, IfNone, OnErr};
ghost use Rattle.std.specs.Option as options;
ghost use Rattle.std.specs.Result.{result_map_both};
ghost use Rattle.plan.specs.Checks.{checked, first_error, speed_error, speed_of, add_fault, next_number, appended, with_task, parameters_of, gears, geared, ratio_fault, with_ratio};
ghost use Rattle.plan.specs.Refusals.{answer, left};
ghost use Rattle.plan.specs.TaskSet.{task_set, parameters, paced, empty};

use super::draft::Draft;
use super::fault::{Place, PlanFault, RecordError, RecordFault};
use super::plan::{Plan, ROWS};
use super::task::{Ratio, Speed, Task};

impl TryFrom<u8> for Speed {
    type Error = RecordError;

    ghost try_from_gives = { λ code r. r ≡ answer (speed_error code) (speed_of code) };

    fn try_from(code: u8) -> Result<Speed, RecordError> {
        match code {
            0 => Ok(Speed::High),
            1 => Ok(Speed::Low),
            _ => Err(RecordError::SpeedOrRest),
        }
    }
}

impl From<Speed> for u8 {
    ghost from_gives = { λ speed code. code ≡ paced speed 0 1 };

    fn from(speed: Speed) -> u8 {
        speed as u8
    }
}

// The task that these numbers give, or the first of them that is out of bounds.
impl TryFrom<Draft> for Task {
    type Error = RecordError;

    ghost try_from_gives = { λ draft r. result_map_both parameters (λ e. e) r ≡ answer (first_error draft) (parameters_of draft) };

    fn try_from(draft: Draft) -> Result<Task, RecordError> {
        let Draft {
            period,
            deadline,
            work,
            m,
            k,
            speed,
        } = draft;
        if period == 0 {
            return Err(RecordError::Period);
        }
        if deadline == 0 || deadline > period {
            return Err(RecordError::Deadline);
        }
        if work == 0 || work > deadline {
            return Err(RecordError::Work);
        }
        if m == 0 || m > k || k > 32 {
            return Err(RecordError::Constraint);
        }
        let speed = Speed::try_from(speed)?;
        Ok(Task {
            period,
            deadline,
            work,
            m,
            k,
            speed,
        })
    }
}

impl Draft {
    // The task that these numbers give, or the first fault, at the place that the caller gives.
    pub fn check(&self, place: Option<Place>) -> Result<Task, RecordFault>
        ensures { result_map_both parameters (λ e. e) result ≡ checked self.now place }
    {
        Task::try_from(*self).map_err(|error| RecordFault { error, place })
    }
}

impl Ratio {
    // The ratio p/q, if 1 ≤ q ≤ p ≤ 16.
    pub fn new(p: u8, q: u8) -> Option<Ratio>
        ensures { options.option_map gears result ≡ geared p q }
    {
        if q == 0 || p < q || p > 16 {
            return None;
        }
        Some(Ratio { p, q })
    }
}

// Each call says by itself that a refusal leaves the plan as it was: no invariant compares a value with what it was.
impl Plan {
    // An empty plan with that ratio.
    pub fn with_ratio(ratio: Ratio) -> Plan
        ensures { task_set result ≡ with_ratio empty ratio.p ratio.q }
    {
        let mut plan = Plan::new();
        plan.ratio = ratio;
        plan
    }

    // Adds a task at the end and answers its number.
    pub fn add(&mut self, draft: Draft) -> Result<usize, PlanFault>
        ensures answer { result ≡ answer (add_fault (task_set self.old) draft) (length (task_set self.old).tasks) }
        ensures after { task_set self.new ≡ left (add_fault (task_set self.old) draft) (with_task (task_set self.old) (parameters_of draft)) (task_set self.old) }
        ensures kept { OnErr result (self.new ≡ self.old) }
    {
        let number = self.next_number().ok_or(PlanFault::Full)?;
        let task = draft.check(Some(Place::Task(number)))?;
        self.push(task);
        Ok(number)
    }

    // Adds a task that is checked already, and answers its number, or nothing where there are 30.
    pub fn append(&mut self, task: Task) -> Option<usize>
        ensures answer { result ≡ next_number (task_set self.old) }
        ensures after { task_set self.new ≡ appended (task_set self.old) (parameters task) }
        ensures kept { IfNone result (self.new ≡ self.old) }
    {
        let number = self.next_number()?;
        self.push(task);
        Some(number)
    }

    // The number that the next task gets, or nothing where there are 30.
    fn next_number(&self) -> Option<usize>
        ensures { result ≡ next_number (task_set self.now) }
    {
        (self.count < ROWS).then_some(self.count)
    }

    fn push(&mut self, task: Task)
        requires { self.old.count < 30 }
        ensures { task_set self.new ≡ with_task (task_set self.old) (parameters task) }
    {
        self.rows[self.count] = task;
        self.count += 1;
    }

    // Sets the ratio p/q: a job takes p/q times as long at low speed.
    pub fn set_ratio(&mut self, p: u8, q: u8) -> Result<(), PlanFault>
        ensures answer { result ≡ answer (ratio_fault p q) tt }
        ensures after { task_set self.new ≡ left (ratio_fault p q) (with_ratio (task_set self.old) p q) (task_set self.old) }
        ensures kept { OnErr result (self.new ≡ self.old) }
    {
        self.ratio = Ratio::new(p, q).ok_or(PlanFault::Ratio)?;
        Ok(())
    }
}
