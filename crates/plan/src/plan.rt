// The plan of one terminal: up to 30 tasks in plain rows, numbered from 0, and the ratio of the speeds.
ghost use Rattle.std.specs.Prelude.{◌≤◌};

use super::task::{Ratio, Task};

// The most tasks that a plan holds.
pub const ROWS: usize = 30;

// Plain rows with their count beside, since the core keeps no heap and a plan is copied as it stands. So it has no
// model either: one that forgot the rows from `count` on, which are spare, could not be copied.
#[derive(Clone, Copy)]
pub struct Plan {
    pub(crate) rows: [Task; 30],
    pub(crate) count: usize,
    pub(crate) ratio: Ratio,
    ghost few: { count ≤ 30 },
}
