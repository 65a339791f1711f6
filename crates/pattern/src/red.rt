// The policy Red: the first m of every k jobs are marked.
ghost use Rattle.pattern.specs.Red.{red_marks};
ghost use Rattle.pattern.specs.Reds.{red_lawful};

use crate::constraint::Constraint;
use crate::policy::Ranged;

#[derive(Clone, Copy, Debug, PartialEq, Eq)]
pub struct Red;

impl Ranged for Red {
    ghost marked = { λ _ _. red_marks };

    ghost lawful = { λ _. red_lawful };

    // Whether the place of the job among its k is below m.
    fn mark_in_range(&self, constraint: Constraint, job: u32) -> bool {
        job % u32::from(constraint.k) < u32::from(constraint.m)
    }
}
