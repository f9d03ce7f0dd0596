ghost use Rattle.std.specs.Prelude.{◌≡◌};
ghost use Rattle.frames.specs.Of.{owned_call};
ghost use Rattle.script.specs.Rows.{letter_of};

use frames::Request;

// A request's letter, as a listing has it. The letters stand in two matches: one reads a letter, which may be none of
// these, and this one names a request's, whose cases hold values.
pub fn letter(request: &Request<Vec<u8>>) -> u8
    ensures { result ≡ letter_of (owned_call request.now) }
{
    match request {
        Request::Open(_) => b'O',
        Request::Add(_) => b'I',
        Request::Adapt(_) => b'R',
        Request::Fill(_) => b'N',
        Request::Close => b'C',
        Request::Abort => b'X',
        Request::Spoil => b'S',
    }
}
