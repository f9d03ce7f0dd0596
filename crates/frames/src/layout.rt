ghost use Rattle.std.specs.Prelude.{◌≡◌};
ghost use Rattle.frames.specs.Layout.{header};

pub const FLAG: u8 = 0x7e;

pub const ESCAPE: u8 = 0x7d;

// behind an escape, what stands for a flag, for an escape and for nothing
pub const ESCAPED_FLAG: u8 = 0x5e;

pub const ESCAPED_ESCAPE: u8 = 0x5d;

pub const ADAPTATION: u8 = 0xdd;

pub const ADDRESS: u8 = 0x04;

pub const CONTROL: u8 = 0x03;

// address, control and SAPI
pub const HEADER: usize = 4;

// The octets of a frame before its information.
pub fn header_octets(sapi: u16) -> [u8; HEADER]
    ensures { result ≡ header sapi }
{
    let [high, low] = sapi.to_be_bytes();
    [ADDRESS, CONTROL, high, low]
}
