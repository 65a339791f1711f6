// The calls on a board: a tick, a done report and a question.
ghost use Rattle.std.specs.Prelude.{◌≡◌, ◌<◌, OnErr};
ghost use Rattle.plan.specs.TaskSet.{task_set};
ghost use Rattle.runner.specs.Boards.{state, pending_answer};
ghost use Rattle.runner.specs.Rules.{fresh, tick_answer, tick_state, done_answer, done_state, ask_answer};

use super::board::Board;
use super::fault::TaskFault;
use pattern::policy::Pattern;
use plan::plan::Plan;
use service::backlog::{Backlog, Pending};
use service::ticks::TickAnswer;
use service::workload::Workload;

impl Board {
    // A plan that was just started, with its cycle.
    pub(crate) fn new(plan: Plan, cycle: u32) -> Board
        requires { 0 < cycle }
        ensures { state result ≡ fresh (task_set plan) cycle }
    {
        Board {
            plan,
            cycle,
            position: 0,
            backlog: Backlog::cleared(),
            last: None,
        }
    }

    // Serves one tick.
    pub(crate) fn tick<P: Pattern>(&mut self, policy: &P) -> TickAnswer
        ensures answer { result ≡ tick_answer (P.meaning policy.now) (state self.old) }
        ensures after { state self.new ≡ tick_state (P.meaning policy.now) (state self.old) }
    {
        let load = Workload {
            plan: &self.plan,
            policy,
        };
        let answer = self.backlog.tick(&load, self.position);
        self.last = answer.served;
        let next = self.position + 1;
        self.position = if next == self.cycle { 0 } else { next };
        answer
    }

    // What is left of the task's open job, if the plan has that task.
    fn pending(&self, task: usize) -> Result<Pending, TaskFault>
        ensures { result ≡ pending_answer self.now task }
    {
        let rows = &self.backlog.rows[..self.plan.len()];
        rows.get(task).copied().ok_or(TaskFault::Absent(task))
    }

    // The task served last has finished its job early: closes the job, and answers the ticks saved.
    pub(crate) fn done(&mut self, task: usize) -> Result<u32, TaskFault>
        ensures answer { result ≡ done_answer (state self.old) task }
        ensures after { state self.new ≡ done_state (state self.old) task }
        ensures kept { OnErr result (self.new ≡ self.old) }
    {
        let saved = self.pending(task)?.work;
        if saved == 0 {
            return Err(TaskFault::NoWork(task));
        }
        match self.last {
            Some(served) if served == task => {
                self.backlog.rows[task] = Pending::IDLE;
                self.last = None;
                Ok(saved)
            }
            _ => Err(TaskFault::NotServed(task)),
        }
    }

    // The work left and the ticks left of the task's open job, or nothing if no work is left.
    pub(crate) fn ask(&self, task: usize) -> Result<Option<(u32, u16)>, TaskFault>
        ensures { result ≡ ask_answer (state self.now) task }
    {
        let Pending { work, ticks } = self.pending(task)?;
        Ok((work > 0).then_some((work, ticks)))
    }
}
