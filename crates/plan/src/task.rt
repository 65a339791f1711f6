// A periodic task with its (m,k) constraint and its speed, and the ratio of the two speeds.
ghost use Rattle.plan.specs.Bounds.{Timed, Constrained, Geared};

#[derive(Clone, Copy, PartialEq, Eq, Debug)]
pub enum Speed {
    High = 0,
    Low = 1,
}

// Times are in ticks. At least `m` of any `k` jobs in a row are mandatory.
#[derive(Clone, Copy, PartialEq, Eq, Debug)]
pub struct Task {
    pub period: u16,
    pub deadline: u16,
    // of one job at high speed
    pub work: u16,
    pub m: u8,
    pub k: u8,
    pub speed: Speed,
    ghost timed: { Timed period deadline work },
    ghost constrained: { Constrained m k },
}

// A job takes p/q times as long at low speed as at high speed.
#[derive(Clone, Copy, PartialEq, Eq, Debug)]
pub struct Ratio {
    pub p: u8,
    pub q: u8,
    ghost geared: { Geared p q },
}
