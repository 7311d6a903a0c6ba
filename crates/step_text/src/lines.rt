// A step's line.
ghost use Rattle.std.specs.Prelude.{◌≡◌};
ghost use Rattle.step_text.specs.Lines.{by_number, read_step, kind_from, fourth_from, kind_behind_by, step_behind_by, step_from};

use steps::{Acting, Step};

// "One form a line", in the order of the table of steps, lend and recall after them, then a move with its error, and last the six kinds that
// can stand behind `by`; each mark stands for a number of its kind.
const FORMS: [u8; 330] = *b"\
(assign ? ?)\n\
(withdraw ? ?)\n\
(grant ? ?)\n\
(take ? ?)\n\
(open ? ?)\n\
(activate ? ?)\n\
(deactivate ? ?)\n\
(access ? ? ?)\n\
(finish ?)\n\
(close ?)\n\
(move ? _ _)\n\
(lost ?)\n\
(clock ?)\n\
(lend ? ? ? ?)\n\
(recall ? ? ?)\n\
(move ? _ _ `)\n\
(by ? (assign ? ?))\n\
(by ? (withdraw ? ?))\n\
(by ? (grant ? ?))\n\
(by ? (take ? ?))\n\
(by ? (lend ? ? ? ?))\n\
(by ? (recall ? ? ?))\n";

// The two forms of a move, without and with its error.
const MOVE: usize = 10;

const MOVE_WITH_ERROR: usize = 15;

// The first of the forms with `by`.
const BEHIND_BY: usize = 16;

// Where each form starts, and where the last one ends.
const STARTS: [usize; 23] = [
    0, 13, 28, 40, 51, 62, 77, 94, 109, 120, 130, 143, 152, 162, 177, 192, 207, 227, 249, 268, 286,
    308, 330,
];

// A good line: its step, and how many bytes it has.
#[derive(Clone, Copy)]
pub struct StepLine {
    pub step: Step,
    pub length: usize,
}

// Reads the line at the front of a text; none where no step stands there, which is 10. A number out of range is for the gate to refuse.
pub fn read_step(text: &[u8]) -> Option<StepLine>
    ensures { by_number result ≡ read_step text.now }
{
    let found = forms::find_likely(&FORMS, &STARTS, likely_form(text), text)?;
    Some(StepLine {
        step: step_of(found.form, &found.values),
        length: found.length,
    })
}

// The step of a form with its values.
fn step_of(form: usize, values: &[u64; 6]) -> Step
    ensures { result ≡ step_from form values.now }
{
    if BEHIND_BY <= form {
        return step_behind_by(form, values);
    }
    Step {
        kind: kind_of(form),
        first: values[0],
        second: values[1],
        third: values[2],
        fourth: fourth_of(form, values[3]),
        x: forms::signed_value(values[1]),
        y: forms::signed_value(values[2]),
        by: Acting::Nobody,
    }
}

// Without `by`, a form's number is its kind's, but for the second form of a move.
fn kind_of(form: usize) -> u64
    ensures { result ≡ kind_from form }
{
    if form == MOVE_WITH_ERROR {
        return Step::MOVE;
    }
    form as u64
}

// A move's error is 0 where it is left out.
fn fourth_of(form: usize, value: u64) -> u64
    ensures { result ≡ fourth_from form value }
{
    if form == MOVE {
        return 0;
    }
    value
}

// The acting session's number stands before the step's own.
fn step_behind_by(form: usize, values: &[u64; 6]) -> Step
    ensures { result ≡ step_behind_by form values.now }
{
    Step {
        kind: kind_behind_by(form),
        first: values[1],
        second: values[2],
        third: values[3],
        fourth: values[4],
        x: 0,
        y: 0,
        by: Acting::InSession(values[0]),
    }
}

fn kind_behind_by(form: usize) -> u64
    ensures { result ≡ kind_behind_by form }
{
    match form {
        16 => Step::ASSIGN,
        17 => Step::WITHDRAW,
        18 => Step::GRANT,
        19 => Step::TAKE,
        20 => Step::LEND,
        _ => Step::RECALL,
    }
}

// Which form a step's line likely has, by the third and fourth letters of its word, and a move's by its spaces; after `by` a space stands
// third. A wrong guess costs time and nothing else.
fn likely_form(text: &[u8]) -> usize {
    match (byte_at(text, 3), byte_at(text, 4)) {
        (b' ', _) => likely_behind_by(text),
        (b'a', b'n') => 2,
        (b'a', _) => 6,
        (b'c', b'e') => 7,
        (b'c', _) => 14,
        (b'e', _) => 4,
        (b'k', _) => 3,
        (b'n', b'i') => 8,
        (b'n', _) => 13,
        (b'o', b's') => 9,
        (b'o', _) => 12,
        (b's', b'i') => 0,
        (b's', _) => 11,
        (b't', b'i') => 5,
        (b't', _) => 1,
        _ if spaces_in_line(text) == 4 => MOVE_WITH_ERROR,
        _ => MOVE,
    }
}

fn likely_behind_by(text: &[u8]) -> usize {
    match letter_behind_by(text) {
        b'a' => 18,
        b'c' => 21,
        b'k' => 19,
        b'n' => 20,
        b's' => 16,
        _ => 17,
    }
}

// The third letter of the word behind `by`, whose session has one to ten digits.
fn letter_behind_by(text: &[u8]) -> u8 {
    for i in 6..16 {
        if byte_at(text, i) == b'(' {
            return byte_at(text, i + 3);
        }
    }
    0
}

// The spaces of the first line, as far as a move can reach.
fn spaces_in_line(text: &[u8]) -> usize {
    text.iter()
        .take(40)
        .take_while(|byte| **byte != b'\n')
        .filter(|byte| **byte == b' ')
        .count()
}

// Past the end of the text, 0.
fn byte_at(text: &[u8], i: usize) -> u8 {
    text.get(i).copied().unwrap_or(0)
}
