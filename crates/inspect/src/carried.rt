ghost use Rattle.std.specs.Prelude.{◌≡◌, IfOk};
ghost use Rattle.inspect.specs.Listing.{on_line};

use crate::code::Code;
use codes::{LineCode, Mirrored, Pile, Scrambler, Straight, receive_all, send_all};
use std::alloc::{AllocError, Global};

// What octets become on the line, and what a receiver gets back from that.
#[derive(Drop)]
pub struct Carried {
    pub line: Vec<u8>,
    pub back: Vec<u8>,
}

// Over a line from a sender to a receiver: the octets come back where the two began alike.
fn through<L: LineCode + Drop>(
    heap: Global,
    mut sender: L,
    mut receiver: L,
    octets: &[u8],
) -> Result<Carried, AllocError>
    ensures line { IfOk result (λ c. c.line.items ≡ L.LineCode.onward sender octets.now) }
    ensures back { IfOk result (λ c. (L.LineCode.back receiver ≡ L.LineCode.back sender → c.back.items ≡ octets.now)) }
{
    let mut line = Vec::from_slice(heap, octets)?;
    send_all(&mut sender, line.as_mut_slice());
    let mut back = line.clone()?;
    receive_all(&mut receiver, back.as_mut_slice());
    Ok(Carried { line, back })
}

// Over a line of the code, from a new sender to a new receiver.
pub fn carry(heap: Global, code: Code, octets: &[u8]) -> Result<Carried, AllocError>
    ensures line { IfOk result (λ c. c.line.items ≡ on_line code octets.now) }
    ensures back { IfOk result (λ c. c.back.items ≡ octets.now) }
{
    match code {
        Code::Straight => through(heap, Straight, Straight, octets),
        Code::Mirrored => through(heap, Mirrored, Mirrored, octets),
        Code::Scrambler => through(heap, Scrambler::new(0), Scrambler::new(0), octets),
        Code::Pile => through(
            heap,
            scrambler_over_mirrored(),
            scrambler_over_mirrored(),
            octets,
        ),
    }
}

fn scrambler_over_mirrored() -> Pile<Scrambler, Mirrored>
    ensures { result.upper.register ≡ 0 }
{
    Pile {
        upper: Scrambler::new(0),
        lower: Mirrored,
    }
}
