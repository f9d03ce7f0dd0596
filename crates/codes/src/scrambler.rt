ghost use Rattle.std.specs.Prelude.{◌≡◌, ◌+◌, ◌*◌, ◌/◌, ◌%◌, ◌^◌};
ghost use Rattle.codes.specs.Bitline.{scrambled, descrambled};
ghost use Rattle.codes.specs.Rules.{Steps};
ghost use Rattle.codes.specs.Registers.{scrambled_rule, descrambled_rule, descrambles, descrambled_settles};

use crate::traits::{LineCode, SettlingCode};

// The self-synchronous scrambler x^43 + 1. The register has the line's last 43 bits, the latest as the bit worth 1. No bit
// of an octet meets another of the same octet, so eight of them are coded at once.
#[derive(Clone, Copy, Debug, PartialEq, Eq)]
pub struct Scrambler {
    register: u64,
}

impl Scrambler {
    pub fn new(register: u64) -> Scrambler
        ensures { result.register ≡ register % 2 ^ 43 }
    {
        Scrambler {
            register: register % (1 << 43),
        }
    }

    pub fn register(&self) -> u64
        ensures { result ≡ self.now.register }
    {
        self.register
    }

    // The eight line bits that stand 43 places before the next eight.
    fn tap(&self) -> u8
        ensures { result ≡ self.now.register / 2 ^ 35 % 2 ^ 8 }
    {
        ((self.register >> 35) % 256) as u8
    }

    // What is sent for the octet, or received for it: they differ in what the register takes in.
    fn answer(&self, octet: u8) -> u8
        ensures sent { Steps (scrambled self.now.register) octet result (scrambled (self.now.register % 2 ^ 35 * 2 ^ 8 + result)) }
        ensures received { Steps (descrambled self.now.register) octet result (descrambled (self.now.register % 2 ^ 35 * 2 ^ 8 + octet)) }
    {
        octet ^ self.tap()
    }

    // Takes a line octet in.
    fn shift(&mut self, line: u8)
        ensures { self.new.register ≡ self.old.register % 2 ^ 35 * 2 ^ 8 + line }
    {
        self.register = ((self.register % (1 << 35)) << 8) + u64::from(line);
    }
}

impl LineCode for Scrambler {
    ghost onward = { λ c. scrambled c.register };

    ghost back = { λ c. descrambled c.register };

    ghost sends = { λ c. scrambled_rule c.register };

    ghost receives = { λ c. descrambled_rule c.register };

    ghost undoes = { λ c. descrambles c.register };

    fn send(&mut self, octet: u8) -> u8 {
        let line = self.answer(octet);
        self.shift(line);
        line
    }

    fn receive(&mut self, octet: u8) -> u8 {
        let answer = self.answer(octet);
        self.shift(octet);
        answer
    }
}

impl SettlingCode for Scrambler {
    ghost settling = { 6 };

    ghost settled = { λ c d. descrambled_settles c.register d.register };

    // six octets fill the register, whatever it held
    fn settling_length() -> u32 {
        6
    }
}
