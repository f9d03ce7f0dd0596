ghost use Rattle.codes.specs.Rules.{told};
ghost use Rattle.frames.specs.Pieces.{ReportsAreSaid, ReportsGoOn};
ghost use Rattle.frames.specs.Promise.{SentIsReported, JoinerAgrees, CuttingIsFree, HearingEnds};
ghost use Rattle.std.specs.Prelude.{◌≡◌};

use checks::Check;
use codes::{LineCode, SettlingCode};
use receiver::Receiver;

// The promises, for all line codes and checks that keep their laws. The functions without a result hold theorems and run
// no code; the calls of this crate pass them on in their own contracts.

// What was sent is what is reported, for every list of calls.
pub fn sent_is_reported<C: LineCode, D: LineCode, K: Check>()
    ensures { SentIsReported C.LineCode.onward C.LineCode.back D.LineCode.onward D.LineCode.back K.Check.width K.Check.owed K.Check.good }
{}

// Cutting what is heard into stretches does not matter.
pub fn cutting_is_free<C: LineCode, D: LineCode, K: Check>()
    ensures { CuttingIsFree C.LineCode.back D.LineCode.back K.Check.good }
{}

// What is reported is what the pieces between the flags say.
pub fn reports_are_said()
    ensures said { ReportsAreSaid }
    ensures further { ReportsGoOn }
{}

// The statements speak of something: a feed of some octets uses one at least, and any octets are all used by some feeds.
pub fn hearing_ends<K: Check>()
    ensures { HearingEnds K.Check.good }
{}

// How many octets must pass after a late joining before a flag can be trusted: behind such a flag the receiver reports
// what one that heard all reports.
pub fn settles_after<S: SettlingCode, K: Check + Drop>(_receiver: &Receiver<S, K>) -> u32
    ensures length { result ≡ told S.SettlingCode.settling }
    ensures agrees { JoinerAgrees S.SettlingCode.settling S.LineCode.back K.Check.good }
{
    joiner_agrees::<S, K>();
    S::settling_length()
}

// A late joiner agrees after a flag.
fn joiner_agrees<S: SettlingCode, K: Check>()
    ensures { JoinerAgrees S.SettlingCode.settling S.LineCode.back K.Check.good }
{}
