ghost use Rattle.std.specs.Prelude.{◌≡◌};
ghost use Rattle.inspect.specs.Listing.{name};

// The line codes that a request can name, each from a new register.
#[derive(Clone, Copy, Debug, PartialEq, Eq)]
pub enum Code {
    Straight,
    Mirrored,
    Scrambler,
    // the scrambler over the mirrored code
    Pile,
}

impl Code {
    // Each code, in the order in which a line is tried.
    pub const ALL: [Code; 4] = [Code::Straight, Code::Mirrored, Code::Scrambler, Code::Pile];

    // octets and no `str`: requests and rows are made of octets
    pub fn name(self) -> &'static [u8]
        ensures { result.now ≡ name self }
    {
        match self {
            Code::Straight => b"straight",
            Code::Mirrored => b"mirrored",
            Code::Scrambler => b"scrambler",
            Code::Pile => b"pile",
        }
    }
}
