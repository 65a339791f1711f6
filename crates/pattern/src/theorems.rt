// What is true of every pattern policy, and how many jobs each of the three marks.
// The functions answer nothing: a contract is the theorem, in the words of specs/.
// Each names the lemma that is its proof.
ghost use Rattle.pattern.specs.Policy.{InRangeDecides, MandatoryAreMarked, RepeatsForEver, EnoughAnywhere, NoneOutside};
ghost use Rattle.pattern.specs.Even.{EvenForEver, EvenMarksOfAStretch, EvenMarksMOfK};
ghost use Rattle.pattern.specs.Red.{RedForEver, RedMarksMOfK};
ghost use Rattle.pattern.specs.Shifted.{ShiftedForEver, ShiftedMarksMOfK};

#[tactic(auto, using(crate::specs::Ranges::in_range_decides))]
pub fn in_range_decides()
    ensures { InRangeDecides }
{}

#[tactic(auto, using(crate::proofs::Policies::mandatory_are_marked))]
pub fn mandatory_are_marked()
    ensures { MandatoryAreMarked }
{}

#[tactic(auto, using(crate::proofs::Policies::repeats_for_ever))]
pub fn repeats_for_ever()
    ensures { RepeatsForEver }
{}

#[tactic(auto, using(crate::proofs::Policies::enough_anywhere))]
pub fn enough_anywhere()
    ensures { EnoughAnywhere }
{}

#[tactic(auto, using(crate::proofs::Policies::none_outside))]
pub fn none_outside()
    ensures { NoneOutside }
{}

#[tactic(auto, using(crate::specs::Evens::even_for_ever))]
pub fn even_for_ever()
    ensures { EvenForEver }
{}

#[tactic(auto, using(crate::specs::Evens::even_marks_of_a_stretch))]
pub fn even_marks_of_a_stretch()
    ensures { EvenMarksOfAStretch }
{}

#[tactic(auto, using(crate::specs::Evens::even_marks_m_of_k))]
pub fn even_marks_m_of_k()
    ensures { EvenMarksMOfK }
{}

#[tactic(auto, using(crate::specs::Reds::red_for_ever))]
pub fn red_for_ever()
    ensures { RedForEver }
{}

#[tactic(auto, using(crate::specs::Reds::red_marks_m_of_k))]
pub fn red_marks_m_of_k()
    ensures { RedMarksMOfK }
{}

#[tactic(auto, using(crate::specs::Shifts::shifted_for_ever))]
pub fn shifted_for_ever()
    ensures { ShiftedForEver }
{}

#[tactic(auto, using(crate::specs::Shifts::shifted_marks_m_of_k))]
pub fn shifted_marks_m_of_k()
    ensures { ShiftedMarksMOfK }
{}
