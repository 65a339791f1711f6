// The (m,k) constraint of a task, where policies have to serve it.
ghost use Rattle.std.specs.Prelude.{◌≡◌, IsTrue, IsSome, IfSome, ◌↔◌};
ghost use Rattle.pattern.specs.Policy.{in_range};

use crate::policy::in_range;

// A task number, m and k in range.
#[derive(Clone, Copy)]
pub(crate) struct Constraint {
    pub(crate) task: usize,
    pub(crate) m: u8,
    pub(crate) k: u8,
    ghost served: { IsTrue (in_range task m k) },
}

impl Constraint {
    // These three, or `None` out of range.
    pub(crate) fn new(task: usize, m: u8, k: u8) -> Option<Constraint>
        ensures served { IsSome result ↔ IsTrue (in_range task m k) }
        ensures same { IfSome result (λ c. (c.task ≡ task) × (c.m ≡ m) × (c.k ≡ k)) }
    {
        if in_range(task, m, k) {
            Some(Constraint { task, m, k })
        } else {
            None
        }
    }
}
