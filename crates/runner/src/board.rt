// What a runner serves: the plan, and how far its service has come.
ghost use Rattle.std.specs.Prelude.{◌<◌};

use plan::plan::Plan;
use service::backlog::Backlog;

// The plan that is served, its cycle in ticks, the position of the coming tick in it, what is left of the open jobs, and
// the task served in the last tick, if any.
#[derive(Clone, Copy)]
pub struct Board {
    pub(crate) plan: Plan,
    pub(crate) cycle: u32,
    pub(crate) position: u32,
    pub(crate) backlog: Backlog,
    pub(crate) last: Option<usize>,
    ghost inside: { position < cycle },
}
