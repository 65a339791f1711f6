// The policy Shifted: the marks of Even, begun for each task at a job of its own.
ghost use Rattle.std.specs.Prelude.{◌≡◌};
ghost use Rattle.pattern.specs.Shifted.{shifted_marks};
ghost use Rattle.pattern.specs.Shifts.{shifted_lawful};

use crate::constraint::Constraint;
use crate::policy::Ranged;

#[derive(Clone, Copy, Debug, PartialEq, Eq)]
pub struct Shifted {
    // by how many jobs the marks of each task are moved
    shifts: [u8; 30],
}

impl Shifted {
    pub fn new(shifts: [u8; 30]) -> Shifted
        ensures answer { result.shifts ≡ shifts }
    {
        Shifted { shifts }
    }
}

impl Ranged for Shifted {
    ghost marked = { λ p. shifted_marks p.shifts };

    ghost lawful = { λ p. shifted_lawful p.shifts };

    fn mark_in_range(&self, constraint: Constraint, job: u32) -> bool {
        constraint.even_marks(u64::from(job) + u64::from(self.shifts[constraint.task]))
    }
}
