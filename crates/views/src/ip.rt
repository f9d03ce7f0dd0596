ghost use Rattle.std.specs.Prelude.{◌≡◌, ◌<◌, ◌≤◌, ◌^◌, length, sum_by};
ghost use Rattle.views.specs.Views.{held, ipv4_of, ipv4_viewed, ipv6_of, ipv6_viewed};
ghost use Rattle.views.specs.Sum.{word_value, word_sum, folded_sum};

use crate::cut::cut;
use crate::parts::{Ipv4Packet, Ipv6Packet, Refusal};

// The sum of the 16-bit words, mathematically.
fn sum_of_words(words: &[[u8; 2]]) -> u32
    requires { sum_by word_value words.now < 2 ^ 32 }
    ensures { result ≡ sum_by word_value words.now }
{
    words
        .iter()
        .map(|word| u32::from(u16::from_be_bytes(*word)))
        .sum()
}

// The ones-complement sum: what is carried out of sixteen bits is added in again, until nothing is.
#[tactic(auto, using(crate::proofs::Sum::words_sum, crate::proofs::Sum::words_fit))]
fn ones_complement_sum(octets: &[u8]) -> u32
    requires { length octets.now ≤ 60 }
    ensures { result ≡ folded_sum (word_sum octets.now) }
{
    let (words, _) = octets.as_chunks::<2>();
    let mut sum = sum_of_words(words);
    while sum > 0xffff {
        sum = sum % 0x10000 + sum / 0x10000;
    }
    sum
}

pub(crate) fn ipv4(information: &[u8]) -> Result<Ipv4Packet<'_>, Refusal>
    ensures { held ipv4_of result ≡ ipv4_viewed information.now }
{
    let Some((fixed, _)) = information.split_first_chunk::<20>() else {
        return Err(Refusal::IpHeader);
    };
    let [first, _, total_high, total_low, ..] = fixed;
    let length = information.len();
    if *first / 16 != 4 {
        return Err(Refusal::IpVersion);
    }
    let header = usize::from(*first % 16) * 4;
    if !(20..=length).contains(&header) {
        return Err(Refusal::IpHeader);
    }
    let total = usize::from(u16::from_be_bytes([*total_high, *total_low]));
    if !(header..=length).contains(&total) {
        return Err(Refusal::IpLength);
    }
    if ones_complement_sum(&information[0..header]) != 0xffff {
        return Err(Refusal::IpSum);
    }
    Ok(Ipv4Packet {
        header: cut(information, 0, 20),
        options: cut(information, 20, header),
        payload: cut(information, header, total),
        rest: cut(information, total, length),
    })
}

pub(crate) fn ipv6(information: &[u8]) -> Result<Ipv6Packet<'_>, Refusal>
    ensures { held ipv6_of result ≡ ipv6_viewed information.now }
{
    let Some((header, after)) = information.split_first_chunk::<40>() else {
        return Err(Refusal::IpHeader);
    };
    if header[0] / 16 != 6 {
        return Err(Refusal::IpVersion);
    }
    let payload = usize::from(u16::from_be_bytes([header[4], header[5]]));
    if payload > after.len() {
        return Err(Refusal::IpLength);
    }
    Ok(Ipv6Packet {
        header: cut(information, 0, 40),
        payload: cut(information, 40, 40 + payload),
        rest: cut(information, 40 + payload, information.len()),
    })
}
