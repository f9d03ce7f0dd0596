ghost use Rattle.std.specs.Prelude.{◌≡◌, length, Some};
ghost use Rattle.frames.specs.Of.{terms};
ghost use Rattle.frames.specs.Receiving.{judgement, report_of, delivered};
ghost use Rattle.receiver.specs.Models.{with_count};

use frames::{ADDRESS, CONTROL, Delivered, Fault, Settings};

// The judgement of a frame that a flag has ended: the first fault that applies, or its information is handed over.
pub fn judge(
    settings: &Settings,
    good: bool,
    frame: &[u8],
    delivery: &mut [u8],
) -> Result<Delivered<usize>, Fault>
    ensures report { with_count (length frame.now) result ≡ report_of (judgement (terms settings.now) (length delivery.old) good frame.now) }
    ensures delivery { delivery.new ≡ delivered (Some (judgement (terms settings.now) (length delivery.old) good frame.now)) delivery.old }
{
    let [address, control, high, low, rest @ ..] = frame else {
        return Err(Fault::Short);
    };
    let Some(length) = rest.len().checked_sub(settings.width()) else {
        return Err(Fault::Short);
    };
    if !good {
        return Err(Fault::Check);
    }
    if *address != ADDRESS {
        return Err(Fault::Address);
    }
    if *control != CONTROL {
        return Err(Fault::Control);
    }
    let sapi = u16::from_be_bytes([*high, *low]);
    if !settings.serves(sapi) {
        return Err(Fault::Sapi);
    }
    if length > delivery.len() {
        return Err(Fault::Shelf);
    }
    delivery[..length].copy_from_slice(&rest[..length]);
    Ok(Delivered {
        sapi,
        information: length,
    })
}
