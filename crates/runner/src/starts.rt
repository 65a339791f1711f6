// Starting a plan, and loading a book: admission decides.
ghost use Rattle.std.specs.Prelude.{◌≡◌, ℕ, ◌<◌, OnErr};
ghost use Rattle.plan.specs.TaskSet.{task_set};
ghost use Rattle.book.specs.Bytes.{byte};
ghost use Rattle.book.specs.Reading.{read_fault, decoded};
ghost use Rattle.admission.specs.Judgement.{Right};
ghost use Rattle.admission.specs.Verdicts.{verdict};
ghost use Rattle.runner.specs.Boards.{state};
ghost use Rattle.runner.specs.Promise.{taken, RightLoad};
ghost use Rattle.runner.specs.Rules.{load_answer};

use super::board::Board;
use super::fault::LoadFault;
use super::runner::Runner;
use admission::admit::admit;
use admission::fault::StartFault;
use book::reader::read;
use pattern::policy::Pattern;
use plan::plan::Plan;

impl<P: Pattern> Runner<P> {
    // Starts the plan and answers its cycle, or refuses it and goes on as before.
    pub fn start(&mut self, plan: Plan) -> Result<u32, StartFault>
        ensures answer { result ≡ verdict (task_set plan) (P.meaning self.old.policy) }
        ensures right { Right (task_set plan) (P.meaning self.old.policy) result }
        ensures after { state self.new.board ≡ taken (task_set plan) result (state self.old.board) }
        ensures policy { self.new.policy ≡ self.old.policy }
        ensures kept { OnErr result (self.new ≡ self.old) }
    {
        let cycle = admit(&self.policy, &plan)?;
        self.board = Board::new(plan, cycle);
        Ok(cycle)
    }

    // Reads the book and starts its plan.
    pub fn load(&mut self, book: &[u8]) -> Result<u32, LoadFault>
        ensures answer { result ≡ load_answer (read_fault book.now) (verdict (decoded book.now) (P.meaning self.old.policy)) }
        ensures right { RightLoad (P.meaning self.old.policy) book.now result }
        ensures after { state self.new.board ≡ taken (decoded book.now) result (state self.old.board) }
        ensures policy { self.new.policy ≡ self.old.policy }
        ensures kept { OnErr result (self.new ≡ self.old) }
        ensures bytes { (i : ℕ) → byte book.now i < 256 }
    {
        let mut plan = Plan::new();
        read(book, &mut plan)?;
        Ok(self.start(plan)?)
    }
}
