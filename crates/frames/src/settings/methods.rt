ghost use Rattle.std.specs.Prelude.{◌≡◌, ◌↔◌, IsOk, IfOk, IfErr};
ghost use Rattle.frames.specs.Of.{terms, Made};
ghost use Rattle.frames.specs.Terms.{serves, limit};

use super::Settings;
use crate::answers::{Refusal, Refused};
use crate::layout::HEADER;
use checks::Check;

// the service access points: no enum, since a host may ask for any of the 65,536 numbers of that field
pub const IPV4: u16 = 0x0021;

pub const IPV6: u16 = 0x0057;

pub const MAC: u16 = 0xfe01;

impl Settings {
    // `served` is the sum of 1 for IPv4, 2 for IPv6 and 4 for MAC. Numbers and no enums: it is here that a host's numbers,
    // whatever they are, become settings or are refused.
    pub fn new(served: u32, longest: u32, width: u32) -> Result<Settings, Refusal>
        ensures { Made (record { served = served; longest = longest; width = width }) result }
    {
        if served == 0 || served > 7 || longest == 0 || longest > 2048 {
            return Err(Refusal::Settings);
        }
        let ipv4 = served % 2 == 1;
        let ipv6 = served / 2 % 2 == 1;
        let mac = served / 4 == 1;
        if mac && longest < 1600 {
            return Err(Refusal::Settings);
        }
        if width != 2 && width != 4 {
            return Err(Refusal::Settings);
        }
        let longest = longest as usize;
        let width = width as usize;
        Ok(Settings {
            ipv4,
            ipv6,
            mac,
            longest,
            width,
        })
    }

    pub fn serves(&self, sapi: u16) -> bool
        ensures { result ≡ serves (terms self.now).served sapi }
    {
        match sapi {
            IPV4 => self.ipv4,
            IPV6 => self.ipv6,
            MAC => self.mac,
            _ => false,
        }
    }

    pub fn longest(&self) -> usize
        ensures { result ≡ (terms self.now).longest }
    {
        self.longest
    }

    pub fn width(&self) -> usize
        ensures { result ≡ (terms self.now).width }
    {
        self.width
    }

    // The most octets that lie between the flags of a good frame.
    pub fn limit(&self) -> usize
        ensures { result ≡ limit (terms self.now) }
    {
        HEADER + self.longest + self.width
    }

    // What an end is to be made of, if the kind of check has the width that the settings say; else it is given back.
    pub fn allow<K: Check, T>(&self, given: T) -> Result<T, Refused<T>>
        ensures allowed { IsOk result ↔ ((terms self.now).width ≡ K.Check.width) }
        ensures passed_on { IfOk result (λ t. t ≡ given) }
        ensures refused { IfErr result (λ e. (e.given ≡ given) × (e.refusal ≡ Refusal.Settings)) }
    {
        if self.width == K::octet_count() {
            Ok(given)
        } else {
            Err(Refused {
                given,
                refusal: Refusal::Settings,
            })
        }
    }
}
