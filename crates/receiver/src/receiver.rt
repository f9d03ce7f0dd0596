ghost use Rattle.std.specs.Prelude.{◌≤◌, length};
ghost use Rattle.frames.specs.Of.{terms};
ghost use Rattle.frames.specs.Terms.{limit};

use crate::ear::Gatherer;
use frames::Settings;

mod methods;

// A receiver over a line code and a kind of check. No more is gathered than a good frame has.
#[derive(Drop)]
pub struct Receiver<L, K> {
    settings: Settings,
    line: L,
    ear: Gatherer<K>,
    ghost within: { length ear.gathered ≤ limit (terms settings) },
}
