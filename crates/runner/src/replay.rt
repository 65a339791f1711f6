// A list of calls to a new runner, one after the other: what the whole promise is made of.
ghost use Rattle.std.specs.Prelude.{◌≡◌, min, length, take, drop};
ghost use Rattle.std.specs.List.{AllByRecursion};
ghost use Rattle.runner.specs.Boards.{state};
ghost use Rattle.runner.specs.Calls.{OfBytes, action, actions};
ghost use Rattle.runner.specs.Promise.{Promise};
ghost use Rattle.runner.specs.Rules.{reply, next};

use super::call::{Answer, Call};
use super::runner::Runner;
use pattern::policy::Pattern;

impl<P: Pattern> Runner<P> {
    // Makes the call. The calls are data, of which the promise speaks as a list; so they carry no steps of their own.
    fn make(&mut self, call: Call) -> Answer
        ensures answer { result ≡ reply (P.meaning self.old.policy) (state self.old.board) (action call.entry) }
        ensures after { state self.new.board ≡ next (P.meaning self.old.policy) (state self.old.board) (action call.entry) }
        ensures policy { self.new.policy ≡ self.old.policy }
        ensures bytes { OfBytes (action call.entry) }
    {
        match call {
            Call::Start(plan) => Answer::Start(self.start(plan)),
            Call::Load(book) => Answer::Load(self.load(book)),
            Call::Tick => Answer::Tick(self.tick()),
            Call::Done(task) => Answer::Done(self.done(task)),
            Call::Ask(task) => Answer::Ask(self.ask(task)),
        }
    }
}

// Makes a new runner with the policy, makes the calls one after the other, as far as there is room for their answers,
// and returns the runner. The room is the caller's, since the core has no heap; it is written by place, since after a
// loop over a zip with it a proof knows nothing of the answers.
pub fn replay<P: Pattern>(policy: P, calls: &[Call], answers: &mut [Answer]) -> Runner<P>
    ensures promise { Promise (P.meaning policy) (actions (take (min (length calls.now) (length answers.old)) calls.now)) (take (min (length calls.now) (length answers.old)) answers.new) (state result.board) }
    ensures rest { drop (min (length calls.now) (length answers.old)) answers.new ≡ drop (min (length calls.now) (length answers.old)) answers.old }
    ensures bytes { AllByRecursion OfBytes (actions (take (min (length calls.now) (length answers.old)) calls.now)) }
    ensures policy { result.policy ≡ policy }
{
    let mut runner = Runner::new(policy);
    let made = calls.len().min(answers.len());
    for (i, call) in calls[..made].iter().enumerate() {
        answers[i] = runner.make(*call);
    }
    runner
}
