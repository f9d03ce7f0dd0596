ghost use Rattle.std.specs.Prelude.{◌≤◌};

mod calls;
pub mod line_test;

// A link watch: T is where `timer` begins, in tenths of a second, and N is where `tries` begins.
#[derive(Drop, Debug, PartialEq, Eq)]
pub struct LinkWatch {
    timer: Countdown,
    tries: Countdown,
    muted: bool,
    ghost timer_in: { timer.from ≤ 600 },
    ghost tries_in: { tries.from ≤ 255 },
}

// A count from `from` down, that begins again as soon as none is left.
#[derive(Drop, Debug, PartialEq, Eq)]
struct Countdown {
    from: u32,
    left: u32,
    ghost left_in: { (1 ≤ left) × (left ≤ from) },
}

// What a tick tells the host.
#[must_use]
#[derive(Clone, Copy, PartialEq, Eq, Debug)]
pub enum Indication {
    Quiet,
    LinkError,
}

// T or N lies outside its range. The discriminant is the number of the refusal.
#[derive(Clone, Copy, PartialEq, Eq, Debug)]
pub enum Refusal {
    Timer = 5,
}
