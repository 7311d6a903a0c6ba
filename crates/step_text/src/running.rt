// The steps of a text: every line is read before any step runs, then each step is decided and its answer written. Each line, and each
// batch of them, is handed on from the byte after the last one's end (docs/DECISIONS.md, Forms): so the rest is a slice from the middle.
ghost use Rattle.std.specs.Prelude.{◌≡◌};
ghost use Rattle.forms.specs.Writing.{Wrote};
ghost use Rattle.enforcement.specs.Runs.{last_state};
ghost use Rattle.step_text.specs.Lines.{read_steps, bad_line};
ghost use Rattle.step_text.specs.Answers.{answers_text};
ghost use Rattle.step_text.specs.Running.{text_run};

use crate::batches::{put_entries, read_batch};
use crate::lines::read_step;
use enforcement::State;
use rules::RuleList;

// The first line that is no step, counted from 1, if any.
pub fn first_bad_step(text: &[u8]) -> Option<usize>
    ensures { result ≡ bad_line (read_steps 1 text.now) }
{
    let mut rest = text;
    let mut line: usize = 1;
    while !rest.is_empty() {
        let Some(good) = read_step(rest) else {
            return Some(line);
        };
        rest = &rest[good.length..];
        line += 1;
    }
    None
}

// Where the answers end, and the state after the last step.
#[derive(Clone, Copy)]
pub struct Answered {
    pub place: usize,
    pub state: State,
}

// The answers to the steps of a text, from a state on and as long as its lines are steps.
pub fn put_answers(
    list: RuleList,
    mut state: State,
    text: &[u8],
    out: &mut [u8],
    at: usize,
) -> Answered
    ensures { Wrote out.old at (answers_text (text_run list state text.now)) result.place out.new × (result.state ≡ last_state state (text_run list state text.now)) }
{
    let mut rest = text;
    let mut place = at;
    while !rest.is_empty() {
        let read = read_batch(rest);
        if read.batch.length == 0 {
            break;
        }
        let ran = state.run_batch(list, read.batch);
        state = ran.state;
        place = put_entries(&ran.entries[..read.batch.length], out, place);
        rest = &rest[read.length..];
    }
    Answered { place, state }
}
