// A task's numbers as they are given, before any check.

// In the widths of a book's record. The speed is a number, 0 for high and 1 for low, since nothing is checked yet.
#[derive(Clone, Copy, PartialEq, Eq, Debug)]
pub struct Draft {
    pub period: u16,
    pub deadline: u16,
    pub work: u16,
    pub m: u8,
    pub k: u8,
    pub speed: u8,
}
