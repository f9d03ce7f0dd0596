// Lists what a receiver reports of a line, whose octets standard input gives as hexadecimal digits. The arguments are pairs of
// numbers: the place where the receiver joins the line, and the length of the stretches that it is fed.
#![tactic(auto)]

use checks::Fcs32;
use codes::Scrambler;
use frames::{Delivered, Faulty, Settings};
use hearing::{Heard, hear};
use receiver::Receiver;
use std::io::Read;
use std::{env, io};
use text::{Hex, parse_decimal, parse_hex};

fn show(rt: &HostRuntime, joined: usize, stretch: u16, heard: &Heard) -> io::Result<()> {
    let place = joined.saturating_add(heard.place);
    print!(rt; "{joined},{stretch},{place},")?;
    match &heard.outcome {
        Ok(Delivered { sapi, information }) => {
            let count = information.len();
            let octets = Hex(information.as_slice());
            println!(rt; "D,0,{sapi:04x},{count},{octets}")
        }
        Err(Faulty { fault, gathered }) => {
            let number = fault.number();
            println!(rt; "F,{number},-,{gathered},-")
        }
    }
}

// A new receiver of the usual settings joins the line: the scrambler from zeros, whatever the line's is.
fn join(rt: &HostRuntime, line: &[u8], joined: u16, stretch: u16) -> io::Result<()> {
    let Ok(settings) = Settings::new(7, 1600, 4) else {
        return Ok(());
    };
    let Ok(mut receiver) = Receiver::<Scrambler, Fcs32>::new(settings, Scrambler::new(0)) else {
        return Ok(());
    };
    let joined = usize::from(joined).min(line.len());
    let rest = &line[joined..];
    let cuts = vec![in rt.alloc(); usize::from(stretch); rest.len()]?;
    for heard in &hear(rt.alloc(), &mut receiver, rest, cuts.as_slice())? {
        show(rt, joined, stretch, heard)?;
    }
    Ok(())
}

fn unfit(rt: &HostRuntime) -> io::Result<()> {
    println!(rt; "?,,,,,,,")
}

fn main(rt: HostRuntime) -> io::Result<()> {
    let mut input = Vec::new(rt.alloc());
    rt.stdin().read_to_end(&mut input)?;
    println!(rt; "joined,stretch,place,report,number,sapi,count,information")?;
    let digits = input.as_slice().trim_ascii();
    let Some(line) = parse_hex(rt.alloc(), digits)? else {
        return unfit(&rt);
    };
    let mut joined = None;
    for word in env::args(&rt)?.skip(1) {
        joined = match (joined, parse_decimal(word.as_bytes())) {
            (_, None) => {
                unfit(&rt)?;
                None
            }
            (None, Some(place)) => Some(place),
            (Some(place), Some(stretch)) => {
                join(&rt, line.as_slice(), place, stretch)?;
                None
            }
        };
    }
    Ok(())
}
