ghost use Rattle.std.specs.Prelude.{◌≤◌};

use frames::Settings;

mod methods;

// A sender with a frame open. It is moved, so that what ends the frame takes it.
#[derive(Drop)]
pub struct Open<L, K> {
    pub(crate) settings: Settings,
    pub(crate) line: L,
    pub(crate) check: K,
    // how many information octets the frame has
    pub(crate) count: usize,
    ghost room: { count ≤ settings.longest },
}
