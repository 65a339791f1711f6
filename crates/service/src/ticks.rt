// What a tick answers.

// Whom the tick served, if anybody; whether that used up the work of its job; and who was late, bit i for task i.
// The rules say a tick's answer in this form.
#[derive(Clone, Copy, PartialEq, Eq, Debug)]
pub struct TickAnswer {
    pub served: Option<usize>,
    pub finished: bool,
    pub late: u32,
}
