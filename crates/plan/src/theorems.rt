// What is true of every plan. The functions answer nothing: a contract is the theorem.
ghost use Rattle.plan.specs.Bounded.{PlanIsBounded};
ghost use Rattle.plan.specs.Laws.{SameIsAnEquivalence};

// The task set of every plan keeps the bounds.
#[tactic(auto, using(crate::proofs::Bounding::plan_is_bounded))]
pub fn plan_is_bounded()
    ensures { PlanIsBounded }
{}

// Being the same is reflexive, symmetric and transitive.
pub fn same_is_an_equivalence()
    ensures { SameIsAnEquivalence }
{}
