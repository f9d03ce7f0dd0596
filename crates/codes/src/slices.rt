ghost use Rattle.std.specs.Prelude.{◌≡◌, ℕ, List};
ghost use Rattle.codes.specs.Rules.{EachCallSteps, Runs};

use crate::traits::LineCode;

// Answers all octets of the slice, each in its place, by a call of the closure.
fn answer_all<L, F: FnMut(&mut L, u8) -> u8>(line: &mut L, octets: &mut [u8], mut answer: F)
    requires { F.IsAlwaysCallable answer }
    ensures { (rule : L → List ℕ → List ℕ) → EachCallSteps F.FnMut rule → Runs (rule line.old) octets.old octets.new (rule line.new) }
{
    for octet in octets.iter_mut() {
        *octet = answer(line, *octet);
    }
}

// Sends all octets of the slice, each in its place.
pub fn send_all<L: LineCode>(line: &mut L, octets: &mut [u8])
    ensures sent { octets.new ≡ L.LineCode.onward line.old octets.old }
    ensures remainder { Runs (L.LineCode.onward line.old) octets.old octets.new (L.LineCode.onward line.new) }
{
    answer_all(line, octets, |line, octet| line.send(octet));
}

// Receives all octets of the slice, each in its place.
pub fn receive_all<L: LineCode>(line: &mut L, octets: &mut [u8])
    ensures received { octets.new ≡ L.LineCode.back line.old octets.old }
    ensures remainder { Runs (L.LineCode.back line.old) octets.old octets.new (L.LineCode.back line.new) }
{
    answer_all(line, octets, |line, octet| line.receive(octet));
}
