// The program's whole work on a text, over and over, for bench/run. The input's first byte says which: `s` reads a saved state under
// no rules and writes it, any other answers rules and steps. The second says how often, by its remainder by 64. The text follows. It prints
// a checksum of what was written and its length. With no input it does both on a short text of each kind.
#![tactic(auto)]

ghost use Rattle.std.specs.Prelude.{◌≡◌, ◌≤◌, IfOk, length};

use enforcement::State;
use rules::{Right, RightSlot, Rule, RuleList, Slot};
use std::io::{self, Cursor, Read};

// Document 01's listing.
const STEPS: [u8; 193] = *b"\
(rule 1 (needs 2 1))\n\
(rule 2 (apart 1 3))\n\
(steps)\n\
(assign 5 1)\n\
(assign 5 3)\n\
(assign 6 2)\n\
(open 0 5)\n\
(open 1 6)\n\
(activate 1 2)\n\
(activate 0 1)\n\
(activate 1 2)\n\
(deactivate 0 1)\n\
(close 0)\n\
(clock 0)\n";

const SAVED: [u8; 88] = *b"\
(now 5)\n\
(assigned 5 1)\n\
(granted 1 7)\n\
(open 0 5)\n\
(place 0 -3 4)\n\
(active 0 1)\n\
(did 2 7 5)\n";

fn main(rt: HostRuntime) -> io::Result<()> {
    let mut head = [0u8; 2];
    if fill(&rt, &mut head)? < 2 {
        answer(&rt, &STEPS, &mut [0; 256], 2)?;
        return save(&rt, &SAVED, &mut [0; 256], 2);
    }
    let [kind, times] = head;
    if kind == b's' {
        return save_input(&rt, times % 64);
    }
    answer_input(&rt, times % 64)
}

// One byte more than the program takes, so that a longer input is seen. No line is shorter than three fifths of its answer's.
fn answer_input(rt: &(impl Input + Print), times: u8) -> io::Result<()> {
    let mut input = [0; 65_537];
    let length = fill(rt, &mut input)?;
    answer(rt, &input[..length], &mut [0; 131_072], times)
}

fn save_input(rt: &(impl Input + Print), times: u8) -> io::Result<()> {
    let mut input = room();
    let length = fill(rt, &mut input)?;
    save(rt, &input[..length], &mut room(), times)
}

// Room for the text of a state in which everything is set. The contract gives the length, which lending it needs.
fn room() -> [u8; 1_048_576]
    ensures { 1048576 ≡ length result }
{
    [0; 1_048_576]
}

// Reads until the input has ended or the room is full; how much was read. Arrays, and no Vec: no program asks for memory.
fn fill(rt: &impl Input, room: &mut [u8]) -> io::Result<usize>
    ensures { IfOk result (λ count. count ≤ length room.new) }
{
    let most = room.len();
    let read = io::copy(&mut rt.reader().take(most as u64), &mut Cursor::new(room))?;
    Ok((read as usize).min(most))
}

// Each time the answers are written over the last.
fn answer(rt: &impl Print, text: &[u8], out: &mut [u8], times: u8) -> io::Result<()> {
    let length = often(times, || texts::respond(text, out).unwrap_or(0));
    show(rt, out, length)
}

// Each time the saved text is written over the last. A text that is refused leaves a fresh state.
fn save(rt: &impl Print, text: &[u8], out: &mut [u8], times: u8) -> io::Result<()> {
    let list = no_rules();
    let length = often(times, || {
        let state = state_text::read_state(list, text).unwrap_or_else(|_| State::fresh());
        state_text::write_state(state, out).unwrap_or(0)
    });
    show(rt, out, length)
}

// What the work gives the last time.
fn often<F: FnMut() -> usize>(times: u8, mut work: F) -> usize
    requires { F.IsAlwaysCallable work }
{
    let mut length = 0;
    for _ in 0..times {
        length = work();
    }
    length
}

fn no_rules() -> RuleList {
    RuleList {
        slots: [Slot {
            rule: Rule::MaxRoles { limit: 32 },
        }; 128],
        length: 0,
        rights: [RightSlot {
            right: Right::Unstated,
        }; 6],
    }
}

// The checksum and the length of the first bytes of a text.
fn show(rt: &impl Print, text: &[u8], length: usize) -> io::Result<()> {
    let sum = text.iter().take(length).fold(0, added);
    println!(rt; "{sum} {length}")
}

fn added(sum: u64, byte: &u8) -> u64 {
    (sum % 1099511627776 * 65599 + u64::from(*byte)) % 1099511627776
}
