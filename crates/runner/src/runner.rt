// A runner: a policy, and the board that it serves by it.
use super::board::Board;

// The policy is fixed when the runner is made, and a refusal changes nothing. Each call says so by itself: no invariant
// compares a value with what it was. There is no model: it would forget the spare rows, and even they stay.
#[derive(Drop)]
pub struct Runner<P> {
    pub(crate) policy: P,
    pub(crate) board: Board,
}
