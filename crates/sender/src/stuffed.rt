ghost use Rattle.std.specs.Prelude.{◌≡◌, ◌≤◌, length};
ghost use Rattle.std.specs.Iterator.{YieldsFirst, item_count};
ghost use Rattle.frames.specs.Layout.{stuff};
ghost use Rattle.sender.specs.Stuffing.{escaped, outgoing};

use frames::{ESCAPE, ESCAPED_ESCAPE, ESCAPED_FLAG, FLAG};

// What follows an escape that goes out in an octet's place, if one does.
fn escaped(octet: u8) -> Option<u8>
    ensures { result ≡ escaped octet }
{
    match octet {
        FLAG => Some(ESCAPED_FLAG),
        ESCAPE => Some(ESCAPED_ESCAPE),
        _ => None,
    }
}

// The octets of a frame as they go out, which are stuffed.
#[derive(Clone, Copy, Debug)]
pub struct Stuffed<'a> {
    octets: &'a [u8],
    // what is to follow the escape that has gone out
    second: Option<u8>,
}

impl Stuffed<'_> {
    pub fn new(octets: &[u8]) -> Stuffed<'_>
        ensures { outgoing result ≡ stuff octets.now }
    {
        Stuffed {
            octets,
            second: None,
        }
    }
}

impl Iterator for Stuffed<'_> {
    type Item = u8;

    ghost next_gives = { YieldsFirst outgoing };

    ghost remaining = { item_count outgoing };

    fn next(&mut self) -> Option<u8> {
        if let Some(second) = self.second.take() {
            return Some(second);
        }
        let (octet, rest) = self.octets.split_first()?;
        self.octets = rest;
        match escaped(*octet) {
            None => Some(*octet),
            second => {
                self.second = second;
                Some(ESCAPE)
            }
        }
    }
}

// How many they are.
pub fn stuffed_length(octets: &[u8]) -> usize
    requires { length octets.now ≤ 2048 }
    ensures count { result ≡ length (stuff octets.now) }
    ensures most { result ≤ 4096 }
{
    octets.len()
        + octets
            .iter()
            .filter(|octet| escaped(**octet).is_some())
            .count()
}
