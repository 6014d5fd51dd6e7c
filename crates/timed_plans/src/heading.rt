//! The frames in which the lines below a heading stand.
ghost use Rattle.std.specs.Prelude.{◌≡◌, ◌<◌, ◌≤◌};
ghost use Rattle.timed_plans.specs.Headings.{frame_alone, frames_between};

/// The frames of a heading: `count` of them, from the first one on, a step apart, none behind the last one.
#[derive(Clone, Copy, Debug, PartialEq, Eq)]
pub(crate) struct Heading {
    pub(crate) first: u32,
    pub(crate) step: u32,
    pub(crate) count: u32,
    pub(crate) last: u32,
}

/// One frame.
pub(crate) fn frame_alone(frame: u32) -> Heading
    ensures { result ≡ frame_alone frame }
{
    Heading {
        first: frame,
        step: 1,
        count: 1,
        last: frame,
    }
}

/// Each frame a period apart, from the first one on, up to the one before `end`.
pub(crate) fn frames_between(period: u32, first: u32, end: u32) -> Heading
    requires period { 0 < period }
    requires some { first < end }
    requires few { end ≤ 100000 }
    ensures { result ≡ frames_between period first end }
{
    Heading {
        first,
        step: period,
        count: (end - first - 1) / period + 1,
        last: end - 1,
    }
}
