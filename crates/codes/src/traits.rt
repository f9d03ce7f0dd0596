ghost use Rattle.std.specs.Prelude.{◌≡◌, ℕ, List};
ghost use Rattle.codes.specs.Rules.{Rule, Undoes, Steps, SameUndo, Settles, told};

// A line code turns octets into as many octets, onward when sending and back when receiving. A value means two rules
// on lists of octets. Neither direction can refuse.
pub trait LineCode {
    ghost onward: { Self → List ℕ → List ℕ };

    ghost back: { Self → List ℕ → List ℕ };

    fn send(&mut self, octet: u8) -> u8
        ensures { Steps (onward self.old) octet result (onward self.new) };

    fn receive(&mut self, octet: u8) -> u8
        ensures { Steps (back self.old) octet result (back self.new) };

    ghost sends: { (c : Self) → Rule (onward c) };

    ghost receives: { (c : Self) → Rule (back c) };

    ghost undoes: { (c : Self) → Undoes (back c) (onward c) };
}

// A line code that settles: what it gives back comes to depend on what it hears alone.
pub trait SettlingCode: LineCode {
    // the settling length itself, which a 32-bit number need not hold
    ghost settling: { ℕ };

    fn settling_length() -> u32
        ensures length { result ≡ told settling }
        ensures settles { Settles settling Self.LineCode.back };

    ghost settled: { Settles settling Self.LineCode.back };
}

// Whatever two kinds of line code are, a value of one undoes what a value of the other sent, where the two mean the same.
pub fn same_meaning_undoes<C: LineCode, D: LineCode>()
    ensures { SameUndo C.LineCode.onward D.LineCode.onward D.LineCode.back C.LineCode.back }
{}
