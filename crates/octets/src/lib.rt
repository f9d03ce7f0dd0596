// Octets and their bits: definitions that the other rooms cite, and lemmas about them.
#![tactic(auto)]

ghost use Rattle.std.specs.Prelude.{◌≡◌, take};

// The first octets, at most all of them.
pub fn front(octets: &[u8], count: usize) -> &[u8]
    ensures { result.now ≡ take count octets.now }
{
    &octets[..count.min(octets.len())]
}
