// A saved text as a state. Each line is handed on from the byte after the last one's end, and the reader's answer taken apart by a let else
// (docs/DECISIONS.md, Forms).
ghost use Rattle.std.specs.Prelude.{◌≡◌};
ghost use Rattle.forms.specs.Refusals.{numbered};
ghost use Rattle.enforcement.specs.States.{fresh, held_roles};
ghost use Rattle.state_text.specs.Refusals.{line_number};
ghost use Rattle.state_text.specs.Reading.{outcome, outcome_in, read_line, read_lines, read_state};
ghost use Rattle.state_text.specs.Parts.{next_of, checked_line};

use crate::causes::{LineRefusal, Refusal};
use crate::entries::{Entry, FORMS, STARTS, follows};
use crate::judging::lowest_broken;
use crate::lines::{has_room, put_line, rests};
use enforcement::State;
use rules::RuleList;

// A line that was read, and its length.
#[derive(Clone, Copy, Debug, PartialEq, Eq)]
pub struct Parsed {
    pub entry: Entry,
    pub length: usize,
}

// The state that a text saves, where it obeys the rules of the list.
#[tactic(auto, unfolding(crate::specs::Reading::read_state))]
pub fn read_state(list: RuleList, text: &[u8]) -> Result<State, Refusal>
    ensures { outcome result ≡ read_state list text.now }
{
    if !list.is_accepted() {
        return Err(Refusal::RulesNotAccepted);
    }
    let mut state = State::fresh();
    read_lines(text, &mut state)?;
    if let Some(rule) = lowest_broken(&list, &state) {
        return Err(Refusal::RuleBroken { rule });
    }
    Ok(state)
}

// The lines, put into the fresh state, or the first refusal with its line. The state is lent: each move of it would take stack for one more.
fn read_lines(text: &[u8], state: &mut State) -> Result<(), Refusal>
    requires { state.old ≡ fresh }
    ensures { outcome_in state.new result ≡ read_lines text.now }
{
    if text.is_empty() {
        return Err(Refusal::Line {
            refusal: LineRefusal::NoForm,
            line: 1,
        });
    }
    let mut held = state.assigned;
    let mut last = None;
    let mut rest = text;
    let mut line: usize = 1;
    while !rest.is_empty() {
        let read = next_line(rest, last, state, &held);
        let Ok(parsed) = read else {
            return Err(Refusal::Line {
                refusal: read.unwrap_err(),
                line,
            });
        };
        put_line(state, &mut held, parsed.entry);
        last = Some(parsed.entry.rank());
        rest = &rest[parsed.length..];
        line += 1;
    }
    Ok(())
}

// The line at the front of the text, where it is good after the lines before it, of which the last has the rank `last`.
fn next_line(
    text: &[u8],
    last: Option<u64>,
    state: &State,
    held: &[u32; 64],
) -> Result<Parsed, LineRefusal>
    requires { held_roles state.now ≡ held.now }
    ensures { numbered line_number result ≡ checked_line (next_of last) state.now (read_line text.now) }
{
    let parsed = scan_line(text)?;
    if !follows(last, parsed.entry.rank()) {
        return Err(LineRefusal::OutOfOrder);
    }
    if !rests(parsed.entry, state, held) {
        return Err(LineRefusal::Unrested);
    }
    if !has_room(parsed.entry, &state.loans) {
        return Err(LineRefusal::LoansFull);
    }
    Ok(parsed)
}

// The line at the front of the text: its form, with each number in its range.
fn scan_line(text: &[u8]) -> Result<Parsed, LineRefusal>
    ensures { numbered line_number result ≡ read_line text.now }
{
    let Some(found) = forms::find_likely(&FORMS, &STARTS, likely_form(text), text) else {
        return Err(LineRefusal::NoForm);
    };
    if !forms::line_in_range(&FORMS, &STARTS, found.form, &found.values) {
        return Err(LineRefusal::OutOfRange);
    }
    Ok(Parsed {
        entry: Entry::of_values(found.form, &found.values),
        length: found.length,
    })
}

// The form that a line most likely has, by its first letters. A wrong guess costs time and nothing else.
fn likely_form(text: &[u8]) -> usize {
    match text {
        [_, b'd', ..] => 7,
        [_, b'g', ..] => 2,
        [_, b'l', ..] => 3,
        [_, b'n', ..] => 0,
        [_, b'o', ..] => 4,
        [_, b'p', ..] => 5,
        [_, _, b's', ..] => 1,
        _ => 6,
    }
}
