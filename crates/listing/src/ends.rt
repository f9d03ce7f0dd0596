ghost use Rattle.std.specs.Prelude.{◌≡◌, [], ◌++◌, map, IfOk};
ghost use Rattle.frames.specs.Calls.{idle};
ghost use Rattle.listing.specs.Listing.{settings, line_code, check, stretch_length, rows};
ghost use Rattle.script.specs.Script.{lines, line_call};

use crate::rows::{Bench, DELIVERY, STRETCH};
use checks::Fcs32;
use codes::Scrambler;
use frames::Settings;
use link::Link;
use std::alloc::AllocError;

// The rows of a script's lines behind the first: the scrambler from zeros, four check octets, all services, 1,600
// information octets.
pub fn list_text(text: &[u8], out: Vec<u8>) -> Result<Vec<u8>, AllocError>
    ensures { IfOk result (λ v. v.items ≡ out.items ++ rows settings line_code check stretch_length idle [] (map line_call (lines text.now))) }
{
    let Ok(settings) = Settings::new(7, 1600, 4) else {
        unreachable!();
    };
    let Ok(link) = Link::<Scrambler, Scrambler, Fcs32>::new(
        settings,
        Scrambler::new(0),
        Scrambler::new(0),
    ) else {
        unreachable!();
    };
    let mut bench = Bench {
        stretch: [0; STRETCH],
        delivery: [0; DELIVERY],
        out,
    };
    bench.list_lines(link, text)?;
    Ok(bench.out)
}
