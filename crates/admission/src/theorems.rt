// What is true of every verdict. The function answers nothing: its contract is the theorem.
ghost use Rattle.admission.specs.Judgement.{VerdictIsRight};

#[tactic(auto, using(crate::proofs::Judged::verdict_is_right))]
pub fn verdict_is_right()
    ensures { VerdictIsRight }
{}
