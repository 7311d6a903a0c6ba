// Malformed texts and texts at their edges (document 01, 'Texts' and 'Refused'; request 2026-06 for policies, 2026-07 for lists joined). The file stdin has the cases and says how they are written.
// The file stdout has what each must give: it was worked out from the document and not taken from a run.
#![tactic(auto)]

mod cases;
mod loaded;
mod quoting;
mod writing;

use loaded::Loaded;
use std::io::{self, Cursor, Read};

fn main(rt: HostRuntime) -> io::Result<()> {
    let mut input = [0; 131_072];
    let length = io::copy(
        &mut rt.reader().take(131_072),
        &mut Cursor::new(&mut input[..]),
    )?;
    each(&rt, &input[..(length as usize).min(131_072)])
}

// Each case is given what those before it loaded. It is a line and the lines after it that start with a space.
fn each(rt: &impl Print, text: &[u8]) -> io::Result<()> {
    let mut loaded = Loaded::nothing();
    for case in text.chunk_by(|last, next| *last != b'\n' || *next == b' ') {
        show(rt, &mut loaded, case)?;
    }
    Ok(())
}

// What stands before the bar, then what came. A comment, which has no bar, is printed as it stands.
fn show(rt: &impl Print, loaded: &mut Loaded, case: &[u8]) -> io::Result<()> {
    let Some(bar) = case.iter().position(|byte| *byte == b'|') else {
        return rt.write_all(case);
    };
    rt.write_all(&case[..bar])?;
    print!(rt; "| ")?;
    let arguments = &case[bar + 1..];
    let mut space = [0; 131_072];
    let text = quoting::text_of(arguments, &mut space);
    let number = quoting::number_at(arguments, b" ?", 0);
    match cases::kind_of(case) {
        Some(kind) => loaded.take(rt, kind, text, number)?,
        None => print!(rt; "no kind of case")?,
    }
    println!(rt)
}
