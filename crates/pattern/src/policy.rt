// What every pattern policy answers about the jobs of a task, and the laws that it owes.
ghost use Rattle.std.specs.Prelude.{◌≡◌, ℕ, Bool, if◌then◌else◌};
ghost use Rattle.pattern.specs.Policy.{Meaning, Lawful, in_range, ranged};

use crate::constraint::Constraint;

// A policy is asked about a task number, m and k, three numbers in range or not: so the rules have it. Asking changes
// nothing.
pub trait Pattern {
    // The lengths and the marks of the policy.
    ghost meaning: { Self → Meaning };

    // After how many jobs the marks repeat.
    fn length(&self, task: usize, m: u8, k: u8) -> u8
        ensures answer { result ≡ (meaning self.now).length task m k };

    // Whether the job is marked, that is, mandatory.
    fn mark(&self, task: usize, m: u8, k: u8, job: u32) -> bool
        ensures answer { result ≡ (meaning self.now).mark task m k job };

    ghost lawful: { (p : Self) → Lawful (meaning p) };
}

// A policy that repeats by k, and marks nothing out of range. It only says which jobs it marks in range.
pub(crate) trait Ranged {
    // The marks of a task number, m and k in range.
    ghost marked: { Self → (task m k job : ℕ) → Bool };

    // Whether the job is marked.
    fn mark_in_range(&self, constraint: Constraint, job: u32) -> bool
        ensures answer { result ≡ marked self.now constraint.task constraint.m constraint.k job };

    ghost lawful: { (p : Self) → Lawful (ranged (marked p)) };
}

// The length and the answer out of range are the same for all of them.
impl<R: Ranged> Pattern for R {
    ghost meaning = { λ p. ranged (R.marked p) };

    ghost lawful = { R.lawful };

    fn length(&self, task: usize, m: u8, k: u8) -> u8 {
        length_k(task, m, k)
    }

    fn mark(&self, task: usize, m: u8, k: u8, job: u32) -> bool {
        Constraint::new(task, m, k).is_some_and(|c| self.mark_in_range(c, job))
    }
}

// Whether a policy has to serve this task number, m and k.
pub fn in_range(task: usize, m: u8, k: u8) -> bool
    ensures answer { result ≡ in_range task m k }
{
    task <= 29 && 1 <= m && m <= k && k <= 32
}

// The length of a policy that repeats by k.
pub fn length_k(task: usize, m: u8, k: u8) -> u8
    ensures answer { result ≡ (if in_range task m k then k else 1) }
{
    Constraint::new(task, m, k).map_or(1, |c| c.k)
}
