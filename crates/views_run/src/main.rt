// Views at the ends of every range, and where two refusals apply. What is printed was worked out apart from the views;
// the check octets of the MAC cases are those of another CRC-32.
#![tactic(auto)]

ghost use Rattle.std.specs.Prelude.{◌≤◌};

use std::io;
use views::{Ipv4Packet, Ipv6Packet, MacFrame, Part, View, view_of};

fn show_parts(rt: &impl Print, kind: &str, parts: &[Part<'_>]) -> io::Result<()> {
    print!(rt; "{kind}")?;
    for part in parts {
        let at = part.at;
        let length = part.octets.len();
        print!(rt; " {at}+{length}")?;
    }
    Ok(())
}

fn show(rt: &impl Print, sapi: u16, information: &[u8]) -> io::Result<()> {
    let length = information.len();
    print!(rt; "{sapi:04x} {length}: ")?;
    match view_of(sapi, information) {
        Ok(View::Mac(frame)) => {
            let MacFrame {
                destination,
                source,
                length_or_type,
                payload,
                check,
            } = frame;
            show_parts(
                rt,
                "mac",
                &[destination, source, length_or_type, payload, check],
            )?;
        }
        Ok(View::Ipv4(packet)) => {
            let Ipv4Packet {
                header,
                options,
                payload,
                rest,
            } = packet;
            show_parts(rt, "ipv4", &[header, options, payload, rest])?;
        }
        Ok(View::Ipv6(packet)) => {
            let Ipv6Packet {
                header,
                payload,
                rest,
            } = packet;
            show_parts(rt, "ipv6", &[header, payload, rest])?;
        }
        Err(refusal) => {
            let number = refusal.number();
            print!(rt; "{number}")?;
        }
    }
    println!(rt; "")
}

// A frame of octets that count up, with these check octets.
fn mac_case(rt: &impl Print, length: usize, check: [u8; 4]) -> io::Result<()>
    requires { (4 ≤ length) × (length ≤ 1519) }
{
    let mut octets = [0u8; 1519];
    let frame = &mut octets[0..length];
    for (i, octet) in frame.iter_mut().enumerate() {
        *octet = (i % 251) as u8;
    }
    frame[length - 4..].copy_from_slice(&check);
    show(rt, 0xfe01, frame)
}

// lengths, and what stands in the place of the check octets
const MAC_CASES: [(usize, [u8; 4]); 11] = [
    (63, [0x67, 0xbc, 0x8d, 0x33]),
    (63, [0x67, 0xbc, 0x8d, 0x32]),
    (64, [0xee, 0x7f, 0xec, 0xb1]),
    (64, [0xee, 0x7f, 0xec, 0xb0]),
    (65, [0x0a, 0xb0, 0x6f, 0xba]),
    (1517, [0xa0, 0xda, 0x47, 0x9f]),
    (1518, [0x1c, 0x9e, 0x2f, 0x9b]),
    (1518, [0x1c, 0x9e, 0x2f, 0x9a]),
    (1519, [0x6e, 0x14, 0x42, 0xc8]),
    (1519, [0x6e, 0x14, 0x42, 0xc9]),
    (64, [0xb0, 0xec, 0x7f, 0xee]),
];

const IPV4_CASES: [&[u8]; 16] = [
    // nothing at all
    b"",
    // 19 octets, and version 6: the header comes first
    b"\x65\x00\x00\x14\x1c\x46\x40\x00\x40\x06\x92\x0e\xac\x10\x0a\x63\xac\x10\x0a",
    // 20 octets, version 6, and a header length of 16: the version comes first
    b"\x64\x00\x00\x14\x1c\x46\x40\x00\x40\x06\x93\x0e\xac\x10\x0a\x63\xac\x10\x0a\x0c",
    // a header length of 16, and a total of 15: the header comes first
    b"\x44\x00\x00\x0f\x1c\x46\x40\x00\x40\x06\xb3\x13\xac\x10\x0a\x63\xac\x10\x0a\x0c",
    // a header length of 24 in 20 octets
    b"\x46\x00\x00\x14\x1c\x46\x40\x00\x40\x06\xb1\x0e\xac\x10\x0a\x63\xac\x10\x0a\x0c",
    // a total of 19, and a wrong sum: the length comes first
    b"\x45\x00\x00\x13\x1c\x46\x40\x00\x40\x06\xb2\x10\xac\x10\x0a\x63\xac\x10\x0a\x0c",
    // a total of 21 in 20 octets
    b"\x45\x00\x00\x15\x1c\x46\x40\x00\x40\x06\xb2\x0d\xac\x10\x0a\x63\xac\x10\x0a\x0c",
    // a wrong sum
    b"\x45\x00\x00\x14\x1c\x46\x40\x00\x40\x06\xb2\x0f\xac\x10\x0a\x63\xac\x10\x0a\x0c",
    // a bare header
    b"\x45\x00\x00\x14\x1c\x46\x40\x00\x40\x06\xb2\x0e\xac\x10\x0a\x63\xac\x10\x0a\x0c",
    // no options, four octets of payload
    b"\x45\x00\x00\x18\x1c\x46\x40\x00\x40\x06\xb2\x0a\xac\x10\x0a\x63\xac\x10\x0a\x0c\x01\x02\x03\x04",
    // two octets of payload, two of rest
    b"\x45\x00\x00\x16\x1c\x46\x40\x00\x40\x06\xb2\x0c\xac\x10\x0a\x63\xac\x10\x0a\x0c\x01\x02\x03\x04",
    // a total of 23 under a header of 24
    b"\x46\x00\x00\x17\x1c\x46\x40\x00\x40\x06\x1d\x06\xac\x10\x0a\x63\xac\x10\x0a\x0c\x94\x04\x00\x01",
    // options, and no payload
    b"\x46\x00\x00\x18\x1c\x46\x40\x00\x40\x06\x1d\x05\xac\x10\x0a\x63\xac\x10\x0a\x0c\x94\x04\x00\x01",
    // options, payload and rest
    b"\x46\x00\x00\x1b\x1c\x46\x40\x00\x40\x06\x1d\x02\xac\x10\x0a\x63\xac\x10\x0a\x0c\x94\x04\x00\x01\x05\x06\x07\x08",
    // right over 20 octets alone
    b"\x46\x00\x00\x18\x1c\x46\x40\x00\x40\x06\xb1\x0a\xac\x10\x0a\x63\xac\x10\x0a\x0c\x94\x04\x00\x01",
    // the longest header
    b"\x4f\x00\x00\x3c\x1c\x46\x40\x00\x40\x06\xa7\xe6\xac\x10\x0a\x63\xac\x10\x0a\x0c\xff\xff\xff\xff\xff\xff\xff\xff\xff\xff\xff\xff\xff\xff\xff\xff\xff\xff\xff\xff\xff\xff\xff\xff\xff\xff\xff\xff\xff\xff\xff\xff\xff\xff\xff\xff\xff\xff\xff\xff",
];

const IPV6_CASES: [&[u8]; 9] = [
    // nothing at all
    b"",
    // 39 octets, and version 4: the header comes first
    b"\x40\x00\x00\x00\x00\x00\x11\x40\x00\x01\x02\x03\x04\x05\x06\x07\x08\x09\x0a\x0b\x0c\x0d\x0e\x0f\x10\x11\x12\x13\x14\x15\x16\x17\x18\x19\x1a\x1b\x1c\x1d\x1e",
    // version 4, and a payload of 1 beyond: the version comes first
    b"\x40\x00\x00\x00\x00\x01\x11\x40\x00\x01\x02\x03\x04\x05\x06\x07\x08\x09\x0a\x0b\x0c\x0d\x0e\x0f\x10\x11\x12\x13\x14\x15\x16\x17\x18\x19\x1a\x1b\x1c\x1d\x1e\x1f",
    // a payload of 1 where none follows
    b"\x60\x00\x00\x00\x00\x01\x11\x40\x00\x01\x02\x03\x04\x05\x06\x07\x08\x09\x0a\x0b\x0c\x0d\x0e\x0f\x10\x11\x12\x13\x14\x15\x16\x17\x18\x19\x1a\x1b\x1c\x1d\x1e\x1f",
    // an empty payload
    b"\x60\x00\x00\x00\x00\x00\x11\x40\x00\x01\x02\x03\x04\x05\x06\x07\x08\x09\x0a\x0b\x0c\x0d\x0e\x0f\x10\x11\x12\x13\x14\x15\x16\x17\x18\x19\x1a\x1b\x1c\x1d\x1e\x1f",
    // an empty payload, and one octet of rest
    b"\x6f\x00\x00\x00\x00\x00\x11\x40\x00\x01\x02\x03\x04\x05\x06\x07\x08\x09\x0a\x0b\x0c\x0d\x0e\x0f\x10\x11\x12\x13\x14\x15\x16\x17\x18\x19\x1a\x1b\x1c\x1d\x1e\x1f\x01",
    // two octets of payload
    b"\x60\x00\x00\x00\x00\x02\x11\x40\x00\x01\x02\x03\x04\x05\x06\x07\x08\x09\x0a\x0b\x0c\x0d\x0e\x0f\x10\x11\x12\x13\x14\x15\x16\x17\x18\x19\x1a\x1b\x1c\x1d\x1e\x1f\x01\x02",
    // three where two follow
    b"\x60\x00\x00\x00\x00\x03\x11\x40\x00\x01\x02\x03\x04\x05\x06\x07\x08\x09\x0a\x0b\x0c\x0d\x0e\x0f\x10\x11\x12\x13\x14\x15\x16\x17\x18\x19\x1a\x1b\x1c\x1d\x1e\x1f\x01\x02",
    // one of payload, one of rest
    b"\x60\x00\x00\x00\x00\x01\x11\x40\x00\x01\x02\x03\x04\x05\x06\x07\x08\x09\x0a\x0b\x0c\x0d\x0e\x0f\x10\x11\x12\x13\x14\x15\x16\x17\x18\x19\x1a\x1b\x1c\x1d\x1e\x1f\x01\x02",
];

const OTHER_CASES: [(u16, &[u8]); 3] = [
    // no view, nothing at all
    (0x0020, b""),
    // no view of a good packet
    (
        0xfe02,
        b"\x45\x00\x00\x14\x1c\x46\x40\x00\x40\x06\xb2\x0e\xac\x10\x0a\x63\xac\x10\x0a\x0c",
    ),
    // no view
    (0x0000, b"\x60"),
];

fn main(rt: HostRuntime) -> io::Result<()> {
    show(&rt, 0xfe01, b"")?;
    for (length, check) in MAC_CASES {
        mac_case(&rt, length, check)?;
    }
    for packet in IPV4_CASES {
        show(&rt, 0x0021, packet)?;
    }
    for packet in IPV6_CASES {
        show(&rt, 0x0057, packet)?;
    }
    for (sapi, information) in OTHER_CASES {
        show(&rt, sapi, information)?;
    }
    Ok(())
}
