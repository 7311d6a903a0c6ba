// The program's whole work on slices: rules, then `(steps)`, then steps.
ghost use Rattle.std.specs.Prelude.{◌≡◌, ◌≤◌, leb, length};
ghost use Rattle.forms.specs.Writing.{Wrote, written_of, lent_after};
ghost use Rattle.forms.specs.Refusals.{numbered, write_number};
ghost use Rattle.texts.specs.Response.{starts_steps, steps_outcome, number_without_steps, outcome_text, response_of};
ghost use Rattle.rule_text.specs.Refusals.{number_if};
ghost use Rattle.step_text.specs.Lines.{read_steps};

use enforcement::State;
use forms::WriteRefusal;
use rule_text::Refusal;
use rules::RuleList;

// Where the steps begin.
const STEPS: [u8; 8] = *b"(steps)\n";

// "The program `gate` reads at most 65,536 bytes".
pub const MOST_BYTES: usize = 65_536;

// No response is longer.
pub const ROOM: usize = 131_072;

// The answers to the input's steps, a line each, or one line on what is bad in it; the text's length, or 18 where the lent space is
// shorter. Then every byte stays, else those past the text.
pub fn respond(input: &[u8], output: &mut [u8]) -> Result<usize, WriteRefusal>
    ensures { (numbered write_number result ≡ written_of (response_of input.now) output.old) × (output.new ≡ lent_after (response_of input.now) output.old) }
{
    if !fits(input, output.len()) {
        return Err(WriteRefusal::NoRoom);
    }
    Ok(put_response(input, output, 0))
}

// The response has room. It is measured, by writing it where it does not fit, only where it could be too long.
fn fits(input: &[u8], room: usize) -> bool
    ensures { result ≡ leb (length (response_of input.now)) room }
{
    if ROOM <= room {
        return true;
    }
    response_length(input) <= room
}

// The bytes of the response.
pub fn response_length(input: &[u8]) -> usize
    ensures { result ≡ length (response_of input.now) }
{
    let mut scratch = [0u8; 1];
    put_response(input, &mut scratch, 0)
}

// The response from place `at` on; where it ends. Bytes past the list's end are left out.
#[tactic(auto, using(crate::proofs::Responding::too_long))]
fn put_response(input: &[u8], out: &mut [u8], at: usize) -> usize
    ensures { Wrote out.old at (response_of input.now) result out.new }
{
    if MOST_BYTES < input.len() {
        return step_text::put_bad(19, 0, out, at);
    }
    let prefix = rule_text::read_prefix(input);
    let start = prefix.length;
    let rest = &input[start..];
    if !starts_steps(rest) {
        return step_text::put_bad(
            number_without_steps(prefix.refusal),
            prefix.line as u64,
            out,
            at,
        );
    }
    let list = prefix.list;
    put_steps(list, prefix.line, &rest[8..], out, at)
}

// The answers to the steps, every line of which is read before any step runs; `line` is the line before them.
fn put_steps(list: RuleList, line: usize, text: &[u8], out: &mut [u8], at: usize) -> usize
    requires { (line ≤ 135) × (length text.now ≤ 65536) }
    ensures { Wrote out.old at (outcome_text (steps_outcome list line (read_steps 1 text.now))) result out.new }
{
    if let Some(bad) = step_text::first_bad_step(text) {
        return step_text::put_bad(10, (line + bad) as u64, out, at);
    }
    step_text::put_answers(list, State::fresh(), text, out, at).place
}

// The text goes on with the line `(steps)`.
fn starts_steps(text: &[u8]) -> bool
    ensures { result ≡ starts_steps text.now }
{
    forms::find(&STEPS, text).is_some()
}

// "A missing `(steps)` is 10".
#[tactic(auto, using(crate::proofs::Responding::told_without_steps))]
fn number_without_steps(refusal: Option<Refusal>) -> u64
    ensures { result ≡ number_without_steps (number_if refusal) }
{
    refusal.unwrap_or(Refusal::NoForm).number()
}
