use frames::Report;

// What was reported, with its information, and the place on the line of the octet that raised it.
#[derive(Debug, PartialEq, Eq, Drop)]
pub struct Heard {
    pub place: usize,
    pub outcome: Report<Vec<u8>>,
}
