ghost use Rattle.std.specs.Prelude.{◌≡◌, ℕ, Bool, List, [], ◌∷◌, ◌++◌, length};
ghost use Rattle.checks.specs.Law.{Width, Owes, Tells};
ghost use Rattle.checks.specs.Written.{check_octets};

use crate::owed::CheckOctets;

// A frame check. A value has taken in some octets since its start; it never refuses one.
pub trait Check {
    // of the kind: how many check octets, which ones a list of octets owes, and whether a list is good
    ghost width: { ℕ };

    ghost owed: { List ℕ → List ℕ };

    ghost good: { List ℕ → Bool };

    // of a value: what it will owe, and whether it will be good, once it has taken in further octets
    ghost owes: { Self → List ℕ → List ℕ };

    ghost passes: { Self → List ℕ → Bool };

    fn octet_count() -> usize
        ensures { result ≡ width };

    fn start() -> Self
        ensures owes { (os : List ℕ) → owes result os ≡ owed os }
        ensures passes { (os : List ℕ) → passes result os ≡ good os };

    fn take_in(&mut self, octet: u8)
        ensures owes { (os : List ℕ) → owes self.new os ≡ owes self.old (octet ∷ os) }
        ensures passes { (os : List ℕ) → passes self.new os ≡ passes self.old (octet ∷ os) };

    fn octets(&self) -> CheckOctets
        ensures { check_octets result ≡ owes self.now [] };

    fn is_good(&self) -> bool
        ensures { result ≡ passes self.now [] };

    ghost widths: { Width width };

    ghost long: { Owes width owed };

    ghost tells: { Tells width owed good };
}

// Takes in a whole slice, octet by octet.
pub fn take_in_all<K: Check>(check: &mut K, octets: &[u8])
    ensures owes { (os : List ℕ) → K.Check.owes check.new os ≡ K.Check.owes check.old (octets.now ++ os) }
    ensures passes { (os : List ℕ) → K.Check.passes check.new os ≡ K.Check.passes check.old (octets.now ++ os) }
{
    for octet in octets {
        check.take_in(*octet);
    }
}

// The check octets that a slice owes.
pub fn check_octets_of<K: Check + Drop>(octets: &[u8]) -> CheckOctets
    ensures { check_octets result ≡ K.Check.owed octets.now }
{
    let mut check = K::start();
    take_in_all(&mut check, octets);
    check.octets()
}

// Whether a frame, its check octets last, is good.
pub fn is_good_frame<K: Check + Drop>(frame: &[u8]) -> bool
    ensures { result ≡ K.Check.good frame.now }
{
    let mut check = K::start();
    take_in_all(&mut check, frame);
    check.is_good()
}
