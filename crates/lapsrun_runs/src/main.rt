// Runs each script that its arguments name and writes its listing under the script's name.
#![tactic(auto)]

use listing::run_script;
use std::io::Write;
use std::{env, fs, io};

fn list(rt: &HostRuntime, name: &str) -> io::Result<()> {
    let script = fs::read(rt, name)?;
    let listing = run_script(rt.alloc(), &script)?;
    println!(rt; "== {name}")?;
    rt.stdout().write_all(&listing)
}

fn main(rt: HostRuntime) -> io::Result<()> {
    for name in env::args(&rt)?.skip(1) {
        list(&rt, name.as_str())?;
    }
    Ok(())
}
