// Why the rest of a frame is passed over.
#[derive(Clone, Copy, Debug, PartialEq, Eq)]
pub enum Cause {
    // 7d was followed by an octet that stands for nothing
    Escape,
    // more octets than any good frame has
    Overlong,
}

// Where a receiver stands between two octets.
#[derive(Clone, Copy, Debug, PartialEq, Eq)]
pub enum Standing {
    // no flag heard yet
    Hunting,
    Gathering,
    // the octet before was 7d
    AfterEscape,
    // the frame is lost; its end is awaited
    Skipping(Cause),
}
