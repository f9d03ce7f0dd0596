ghost use Rattle.std.specs.Prelude.{◌≡◌};
ghost use Rattle.views.specs.Views.{held, view_of, viewed, Tiled, SumLaw, number_of};

use crate::ip::{ipv4, ipv6};
use crate::mac::mac;
use crate::parts::{Refusal, View};

// the numbers once more: views stand apart from the ends, and `frames` would bring all of those in
const MAC_SAPI: u16 = 0xfe01;

const IPV4_SAPI: u16 = 0x0021;

const IPV6_SAPI: u16 = 0x0057;

// The information that a frame with this SAPI delivered, by its fields.
#[tactic(auto, using(crate::proofs::Law::sum_law))]
pub fn view_of(sapi: u16, information: &[u8]) -> Result<View<'_>, Refusal>
    ensures viewed { held view_of result ≡ viewed sapi information.now }
    ensures tiled { Tiled information.now (held view_of result) }
    ensures sums { SumLaw information.now }
{
    match sapi {
        MAC_SAPI => mac(information).map(View::Mac),
        IPV4_SAPI => ipv4(information).map(View::Ipv4),
        IPV6_SAPI => ipv6(information).map(View::Ipv6),
        _ => Err(Refusal::NoView),
    }
}

impl Refusal {
    pub fn number(self) -> u8
        ensures { result ≡ number_of self }
    {
        self as u8
    }
}
