use frames::Request;

// A call with the length of the stretch that it is lent.
#[derive(Clone, Copy, Debug, PartialEq, Eq)]
pub struct Lent<'a> {
    pub request: Request<&'a [u8]>,
    pub room: usize,
}
