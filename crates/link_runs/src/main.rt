// The same list of calls over links of every kind of line code, with both checks: the answers, the line, and what the far end
// reports of it.
#![tactic(auto)]

use checks::{Check, Fcs16, Fcs32};
use codes::{LineCode, Mirrored, Pile, Scrambler, Straight};
use exchange::{Lent, Run, RunError, exchange};
use frames::{Delivered, Faulty, Request, Settings};
use hearing::Heard;
use link::{Answer, Link, Stepped, TurnedDown};
use std::io;
use text::Hex;

// room for the longest that a call here writes, the adaptation apart that is to be refused
const ROOM: usize = 24;

fn show_answer(rt: &HostRuntime, answer: Answer) -> io::Result<()> {
    match answer {
        Ok(written) => print!(rt; " {written}"),
        Err(TurnedDown::Refused(refusal)) => {
            let number = refusal.number();
            print!(rt; " refused:{number}")
        }
        Err(TurnedDown::NotAllowed) => print!(rt; " not-allowed"),
    }
}

fn show_heard(rt: &HostRuntime, heard: &Heard) -> io::Result<()> {
    let place = heard.place;
    match &heard.outcome {
        Ok(Delivered { sapi, information }) => {
            let octets = Hex(information.as_slice());
            println!(rt; "at {place}: {sapi:04x} {octets}")
        }
        Err(Faulty { fault, gathered }) => {
            let number = fault.number();
            println!(rt; "at {place}: fault {number}, {gathered}")
        }
    }
}

fn show_run(rt: &HostRuntime, run: &Run) -> io::Result<()> {
    print!(rt; "answers")?;
    for answer in &run.answers {
        show_answer(rt, *answer)?;
    }
    println!(rt; "")?;
    let line = Hex(run.line.as_slice());
    println!(rt; "line {line}")?;
    for heard in &run.reports {
        show_heard(rt, heard)?;
    }
    Ok(())
}

// Filling, a SAPI that is not served, a frame with the octets that need stuffing and the adaptation pair inside and between
// them, an adaptation too long for its stretch, a call that is not allowed, an abort, and a spoiled frame.
const CALLS: [Request<&[u8]>; 14] = [
    Request::Fill(2),
    Request::Open(0x1234),
    Request::Open(0x0021),
    Request::Add(&[0x7e, 0x7d, 0xdd]),
    Request::Adapt(3),
    Request::Adapt(13),
    Request::Add(&[0x00, 0xff]),
    Request::Open(0x0021),
    Request::Close,
    Request::Open(0x0057),
    Request::Add(&[0x60]),
    Request::Abort,
    Request::Open(0xfe01),
    Request::Spoil,
];

// The far end hears the line by a stretch of one octet, an empty one, one of five, and the rest.
fn run<L: LineCode + Drop, D: LineCode + Drop, K: Check + Drop>(
    rt: &HostRuntime,
    name: &str,
    width: u32,
    near: L,
    far: D,
) -> io::Result<()> {
    println!(rt; "{name}, {width} check octets")?;
    let Ok(settings) = Settings::new(7, 1600, width) else {
        return Ok(());
    };
    let calls = CALLS.map(|request| Lent {
        request,
        room: ROOM,
    });
    match exchange::<L, D, K>(rt.alloc(), settings, near, far, &calls, &[1, 0, 5]) {
        Ok(run) => show_run(rt, &run),
        Err(RunError::Refused(refusal)) => {
            let number = refusal.number();
            println!(rt; "refused:{number}")
        }
        Err(RunError::OutOfMemory(wanting)) => Err(wanting.into()),
    }
}

// A frame of three information octets into a delivery buffer of two.
fn short_delivery(rt: &HostRuntime) -> io::Result<()> {
    let Ok(settings) = Settings::new(7, 1600, 2) else {
        return Ok(());
    };
    let Ok(link) = Link::<Straight, Straight, Fcs16>::new(settings, Straight, Straight) else {
        return Ok(());
    };
    let mut stretch = [0xaa; ROOM];
    let mut delivery = [0xbb; 2];
    let link = link
        .call(Request::Open(0xfe01), &mut stretch, &mut delivery)
        .link;
    let link = link
        .call(Request::Add(&[1, 2, 3]), &mut stretch, &mut delivery)
        .link;
    let Stepped { report, .. } = link.call(Request::Close, &mut stretch, &mut delivery);
    print!(rt; "delivery of two octets: ")?;
    if let Some(Err(Faulty { fault, gathered })) = report {
        let number = fault.number();
        print!(rt; "fault {number}, {gathered}, ")?;
    }
    let octets = Hex(&delivery);
    println!(rt; "{octets}")
}

fn scrambler() -> Scrambler {
    Scrambler::new(0x123_4567_89ab)
}

fn two_scramblers() -> Pile<Scrambler, Scrambler> {
    Pile {
        upper: Scrambler::new(1),
        lower: Scrambler::new(2),
    }
}

// means the same as the scrambler alone
fn scrambler_over_straight() -> Pile<Scrambler, Straight> {
    Pile {
        upper: scrambler(),
        lower: Straight,
    }
}

fn run_over_two_kinds<K: Check + Drop>(rt: &HostRuntime, width: u32) -> io::Result<()> {
    run::<Scrambler, Pile<Scrambler, Straight>, K>(
        rt,
        "two kinds that mean the same",
        width,
        scrambler(),
        scrambler_over_straight(),
    )
}

fn run_over_pile<K: Check + Drop>(rt: &HostRuntime, width: u32) -> io::Result<()> {
    run::<Pile<Scrambler, Scrambler>, Pile<Scrambler, Scrambler>, K>(
        rt,
        "two scramblers",
        width,
        two_scramblers(),
        two_scramblers(),
    )
}

fn main(rt: HostRuntime) -> io::Result<()> {
    run::<Straight, Straight, Fcs16>(&rt, "straight", 2, Straight, Straight)?;
    run::<Straight, Straight, Fcs32>(&rt, "straight", 4, Straight, Straight)?;
    run::<Mirrored, Mirrored, Fcs16>(&rt, "mirrored", 2, Mirrored, Mirrored)?;
    run::<Mirrored, Mirrored, Fcs32>(&rt, "mirrored", 4, Mirrored, Mirrored)?;
    run_over_pile::<Fcs16>(&rt, 2)?;
    run_over_pile::<Fcs32>(&rt, 4)?;
    run_over_two_kinds::<Fcs16>(&rt, 2)?;
    run_over_two_kinds::<Fcs32>(&rt, 4)?;
    // a check of another width than the settings say
    run::<Straight, Straight, Fcs16>(&rt, "straight", 4, Straight, Straight)?;
    short_delivery(&rt)
}
