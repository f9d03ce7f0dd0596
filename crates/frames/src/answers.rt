ghost use Rattle.std.specs.Prelude.{◌≡◌};
ghost use Rattle.frames.specs.Numbers.{refusal_number, fault_number, cause_fault};

use crate::standing::Cause;

// What is turned down at the sending end, or when an end is made. Each has the number by which a host knows it.
#[derive(Clone, Copy, Debug, PartialEq, Eq)]
pub enum Refusal {
    Settings = 1,
    Unserved = 2,
    Overfull = 3,
    Stretch = 4,
}

impl Refusal {
    // One line for each enum that has numbers: a trait for them would have each enum's numbers to state all the same.
    pub fn number(self) -> u8
        ensures { result ≡ refusal_number self }
    {
        self as u8
    }
}

// What was turned down is given back, with the reason.
#[derive(Clone, Copy, Debug, Drop, PartialEq, Eq)]
pub struct Refused<T> {
    pub given: T,
    pub refusal: Refusal,
}

// What is wrong with a frame that was heard. Each has the number by which a host knows it.
#[derive(Clone, Copy, Debug, PartialEq, Eq)]
pub enum Fault {
    Abort = 11,
    Escape = 12,
    Overlong = 13,
    Short = 14,
    Check = 15,
    Address = 16,
    Control = 17,
    Sapi = 18,
    Shelf = 19,
}

impl Fault {
    pub fn number(self) -> u8
        ensures { result ≡ fault_number self }
    {
        self as u8
    }
}

// What a frame that was passed over is reported as.
impl From<Cause> for Fault {
    ghost from_gives = { λ cause fault. fault ≡ cause_fault cause };

    fn from(cause: Cause) -> Fault {
        match cause {
            Cause::Escape => Fault::Escape,
            Cause::Overlong => Fault::Overlong,
        }
    }
}

// A frame that is handed over: its service access point, and its information or how long that is.
#[derive(Clone, Copy, Debug, PartialEq, Eq, Drop)]
pub struct Delivered<I> {
    pub sapi: u16,
    pub information: I,
}

// A frame that is not: what is wrong with it, and how many octets of it were gathered.
#[derive(Clone, Copy, Debug, PartialEq, Eq)]
pub struct Faulty {
    pub fault: Fault,
    pub gathered: usize,
}

// What became of a frame.
pub type Report<I> = Result<Delivered<I>, Faulty>;
