// Reads requests from standard input, one a line, and prints a row for each.
#![tactic(auto)]

use inspect::{inspect, keep, refusal};
use std::alloc::Global;
use std::io;
use std::io::{BufRead, BufReader, BufWriter, ErrorKind, Write};

// How many octets a read asks for. Where the input comes in packets, what a shorter read leaves of one is lost.
const READ: usize = 16384;

fn show(output: &mut impl Write, row: Vec<u8>) -> io::Result<()> {
    output.write_all(row.as_slice())?;
    output.write_all(b"\n")
}

// Answers each line that ends in the octets; `line` has the beginning of the first.
fn take_in(
    heap: Global,
    output: &mut impl Write,
    line: &mut Vec<u8>,
    octets: &[u8],
) -> io::Result<()> {
    for octet in octets {
        match octet {
            b'\n' => {
                show(output, inspect(heap, line.as_slice())?)?;
                line.clear();
            }
            character => keep(line, *character)?,
        }
    }
    Ok(())
}

fn main(rt: HostRuntime) -> io::Result<()> {
    let heap = rt.alloc();
    let mut input = BufReader::with_capacity(heap, READ, rt.stdin())?;
    let mut output = BufWriter::new(heap, rt.stdout())?;
    output.write_all(b"code,octets,fcs16,fcs32,line,back\n")?;
    let mut line = Vec::new(heap);
    for _ in 0..u64::MAX {
        let octets = match input.fill_buf() {
            Err(e) if e.kind() == ErrorKind::Interrupted => continue,
            read => read?,
        };
        let count = octets.len();
        if count == 0 {
            break;
        }
        take_in(heap, &mut output, &mut line, octets)?;
        input.consume(count);
    }
    if !line.is_empty() {
        show(&mut output, refusal(heap)?)?;
    }
    output.flush()
}
