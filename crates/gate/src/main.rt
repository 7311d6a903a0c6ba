// The program: rules, `(steps)` and steps from standard input, the answers to standard output. What cannot be read or written is said on
// standard error.
#![tactic(auto)]

use std::io::{self, Cursor, Read};
use std::process::ExitCode;

fn main(rt: HostRuntime) -> io::Result<ExitCode> {
    // One byte more than is allowed, so that a longer input is seen (19).
    let mut input = [0u8; 65_537];
    let Ok(length) = io::copy(
        &mut rt.reader().take(65_537),
        &mut Cursor::new(&mut input[..]),
    ) else {
        eprintln!(rt; "gate: standard input was not read to its end")?;
        return Ok(ExitCode::FAILURE);
    };
    let mut output = [0u8; texts::ROOM];
    // 18 does not come: the room is enough for any response.
    if let Ok(length) = texts::respond(&input[..(length as usize).min(65_537)], &mut output)
        && let Some(response) = output.get(..length)
        && rt.write_all(response).is_ok()
    {
        return Ok(ExitCode::SUCCESS);
    }
    eprintln!(rt; "gate: the answers were not all written")?;
    Ok(ExitCode::FAILURE)
}
