// The policy Even: Ramanathan's partition, which spreads m marks evenly over any k jobs.
ghost use Rattle.std.specs.Prelude.{◌≡◌, ◌*◌, ◌^◌, ◌<◌};
ghost use Rattle.plan.specs.Rounding.{ceil};
ghost use Rattle.pattern.specs.Even.{even_marks};
ghost use Rattle.pattern.specs.Evens.{even_lawful};

use crate::constraint::Constraint;
use crate::policy::Ranged;

#[derive(Clone, Copy, Debug, PartialEq, Eq)]
pub struct Even;

impl Ranged for Even {
    ghost marked = { λ _ _. even_marks };

    ghost lawful = { λ _. even_lawful };

    fn mark_in_range(&self, constraint: Constraint, job: u32) -> bool {
        constraint.even_marks(u64::from(job))
    }
}

impl Constraint {
    // Whether Even marks the job. Mark n, counted from 0, stands at job n × k / m, rounded down.
    // A shifted job number passes 32 bits.
    pub(crate) fn even_marks(self, job: u64) -> bool
        requires width { job < 2 ^ 33 }
        ensures answer { result ≡ even_marks self.m self.k job }
    {
        job == self.marked_before(job) * u64::from(self.k) / u64::from(self.m)
    }

    // How many jobs before this one Even marks: job × m / k, rounded up.
    fn marked_before(self, job: u64) -> u64
        requires width { job < 2 ^ 33 }
        ensures answer { result ≡ ceil (job * self.m) self.k }
    {
        (job * u64::from(self.m)).div_ceil(u64::from(self.k))
    }
}
