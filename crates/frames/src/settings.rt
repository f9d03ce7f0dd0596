ghost use Rattle.std.specs.Prelude.{◌≡◌, ◌≤◌, true, ◌||◌, ◌==◌};
ghost use Rattle.frames.specs.Terms.{services};

mod methods;

// What an end is set to. No value breaks the rules: something is served, the longest information is one octet to 2,048
// and at least 1,600 where MAC is served, and there are two check octets or four.
#[derive(Clone, Copy, Debug, PartialEq, Eq)]
pub struct Settings {
    ipv4: bool,
    ipv6: bool,
    mac: bool,
    longest: usize,
    width: usize,
    ghost served: { 1 ≤ services ipv4 ipv6 mac },
    ghost some: { 1 ≤ longest },
    ghost most: { longest ≤ 2048 },
    ghost room: { mac ≡ true → 1600 ≤ longest },
    ghost check: { (width == 2 || width == 4) ≡ true },
}
