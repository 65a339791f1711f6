// Making a runner, and its ticks, done reports and questions.
ghost use Rattle.std.specs.Prelude.{◌≡◌, OnErr};
ghost use Rattle.runner.specs.Boards.{state};
ghost use Rattle.runner.specs.Calls as action;
ghost use Rattle.runner.specs.Reached.{PromiseGoesOn};
ghost use Rattle.runner.specs.Rules.{made, tick_answer, tick_state, done_answer, done_state, ask_answer};
ghost use Rattle.runner.specs.declared.call.Answer.TheVariants as said;

use super::board::Board;
use super::fault::TaskFault;
use super::runner::Runner;
use pattern::policy::Pattern;
use plan::plan::Plan;
use service::ticks::TickAnswer;

impl<P: Pattern> Runner<P> {
    // A new runner serves the empty plan.
    pub fn new(policy: P) -> Runner<P>
        ensures policy { result.policy ≡ policy }
        ensures after { state result.board ≡ made }
    {
        Runner {
            policy,
            board: Board::new(Plan::new(), 1),
        }
    }

    // Serves one tick.
    pub fn tick(&mut self) -> TickAnswer
        ensures answer { result ≡ tick_answer (P.meaning self.old.policy) (state self.old.board) }
        ensures after { state self.new.board ≡ tick_state (P.meaning self.old.policy) (state self.old.board) }
        ensures policy { self.new.policy ≡ self.old.policy }
        ensures promise { PromiseGoesOn (P.meaning self.old.policy) (state self.old.board) action.tick (said.Tick result) (state self.new.board) }
    {
        self.board.tick(&self.policy)
    }

    // The task served last has finished its job early: closes the job, and answers the ticks saved.
    pub fn done(&mut self, task: usize) -> Result<u32, TaskFault>
        ensures answer { result ≡ done_answer (state self.old.board) task }
        ensures after { state self.new.board ≡ done_state (state self.old.board) task }
        ensures policy { self.new.policy ≡ self.old.policy }
        ensures kept { OnErr result (self.new ≡ self.old) }
        ensures promise { PromiseGoesOn (P.meaning self.old.policy) (state self.old.board) (action.done task) (said.Done result) (state self.new.board) }
    {
        self.board.done(task)
    }

    // The work left and the ticks left of the task's open job, or nothing if no work is left.
    pub fn ask(&self, task: usize) -> Result<Option<(u32, u16)>, TaskFault>
        ensures answer { result ≡ ask_answer (state self.now.board) task }
        ensures promise { PromiseGoesOn (P.meaning self.now.policy) (state self.now.board) (action.ask task) (said.Ask result) (state self.now.board) }
    {
        self.board.ask(task)
    }
}
