ghost use Rattle.std.specs.Prelude.{◌≡◌, ◌≤◌, length};
ghost use Rattle.views.specs.Views.{held, mac_of, mac_viewed, checked};

use crate::cut::cut;
use crate::parts::{MacFrame, Refusal};
use checks::{Fcs32, check_octets_of};

// Whether the last four octets are the check octets of those before.
fn check_stands(information: &[u8]) -> bool
    requires { 4 ≤ length information.now }
    ensures { result ≡ checked information.now }
{
    let (covered, check) = information.split_at(information.len() - 4);
    check_octets_of::<Fcs32>(covered).as_slice() == check
}

pub(crate) fn mac(information: &[u8]) -> Result<MacFrame<'_>, Refusal>
    ensures { held mac_of result ≡ mac_viewed information.now }
{
    let length = information.len();
    if !(64..=1518).contains(&length) {
        return Err(Refusal::MacLength);
    }
    if !check_stands(information) {
        return Err(Refusal::MacCheck);
    }
    Ok(MacFrame {
        destination: cut(information, 0, 6),
        source: cut(information, 6, 12),
        length_or_type: cut(information, 12, 14),
        payload: cut(information, 14, length - 4),
        check: cut(information, length - 4, length),
    })
}
