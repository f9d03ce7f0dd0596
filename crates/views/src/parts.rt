// A part of some information: the place of its first octet there, and its octets.
#[derive(Clone, Copy, PartialEq, Eq, Debug)]
pub struct Part<'a> {
    pub at: usize,
    pub octets: &'a [u8],
}

// The parts of each view stand in the order of the information.
#[derive(Clone, Copy, PartialEq, Eq, Debug)]
pub struct MacFrame<'a> {
    pub destination: Part<'a>,
    pub source: Part<'a>,
    pub length_or_type: Part<'a>,
    pub payload: Part<'a>,
    pub check: Part<'a>,
}

#[derive(Clone, Copy, PartialEq, Eq, Debug)]
pub struct Ipv4Packet<'a> {
    pub header: Part<'a>,
    pub options: Part<'a>,
    pub payload: Part<'a>,
    pub rest: Part<'a>,
}

#[derive(Clone, Copy, PartialEq, Eq, Debug)]
pub struct Ipv6Packet<'a> {
    pub header: Part<'a>,
    pub payload: Part<'a>,
    pub rest: Part<'a>,
}

#[derive(Clone, Copy, PartialEq, Eq, Debug)]
pub enum View<'a> {
    Mac(MacFrame<'a>),
    Ipv4(Ipv4Packet<'a>),
    Ipv6(Ipv6Packet<'a>),
}

// Why information has no view. The discriminants are the numbers of the refusals.
#[derive(Clone, Copy, PartialEq, Eq, Debug)]
pub enum Refusal {
    MacLength = 21,
    MacCheck = 22,
    IpVersion = 23,
    IpHeader = 24,
    IpLength = 25,
    IpSum = 26,
    NoView = 27,
}
