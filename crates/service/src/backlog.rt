// What is left of the open jobs, task by task.

// The work left of a task's open job, and the ticks left to its deadline. No job is open where no work is left: the
// rule itself counts so, with two numbers for each task, and 0 needs no case of its own.
#[derive(Clone, Copy, PartialEq, Eq, Debug)]
pub struct Pending {
    pub work: u32,
    pub ticks: u16,
}

// A row for each task of a plan; the rows past them are spare. Plain rows, since the terminal has no heap.
#[derive(Clone, Copy, PartialEq, Eq, Debug)]
pub struct Backlog {
    pub rows: [Pending; 30],
}
