// Reads a script from standard input and writes its listing.
#![tactic(auto)]

use listing::run_script;
use std::io;
use std::io::{BufReader, Read, Write};

// One octet more than a script may have tells that it has more.
const MOST: usize = 16385;

fn main(rt: HostRuntime) -> io::Result<()> {
    let mut script = Vec::new(rt.alloc());
    // each read asks for all that a script may still have: where the input comes in packets, what a shorter read leaves of one
    // is lost
    let input = rt.stdin().take(MOST as u64);
    BufReader::with_capacity(rt.alloc(), MOST, input)?.read_to_end(&mut script)?;
    let listing = run_script(rt.alloc(), &script)?;
    rt.stdout().write_all(&listing)
}
