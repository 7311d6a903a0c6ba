// Each kind of step granted, and refused with each of its numbers, on fresh states and on handed-in ones (document 01, 'State and steps' and
// 'Refused'; requests 2026-01, 2026-04 and 2026-05). The file stdin has the cases and says how they are written. The file stdout has what each must give: it was
// worked out from the documents and not taken from a run.
#![tactic(auto)]

mod given;
mod lines;
mod numbers;

use given::Given;
use std::io::{self, Cursor, Read};

fn main(rt: HostRuntime) -> io::Result<()> {
    let mut input = [0u8; 65_536];
    let length = io::copy(
        &mut rt.reader().take(65_536),
        &mut Cursor::new(&mut input[..]),
    )?;
    each(&rt, &input[..(length as usize).min(65_536)])
}

// Each line as it stands, with what came of it. What is left of the text is a slice, since rules are read past their first line.
fn each(rt: &impl Print, text: &[u8]) -> io::Result<()> {
    let mut given = Given::fresh();
    let mut rest = text;
    while let Some(end) = rest.iter().position(|byte| *byte == b'\n') {
        let line = &rest[..end];
        rt.write_all(line)?;
        given.take(rt, rest, line)?;
        println!(rt)?;
        rest = &rest[end + 1..];
    }
    Ok(())
}
