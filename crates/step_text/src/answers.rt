// The answers as text.
ghost use Rattle.forms.specs.Writing.{Wrote};
ghost use Rattle.step_text.specs.Answers.{line_text, answer_text, bad_text};

use steps::Answer;

const FORMS: [u8; 31] = *b"\
(yes ? ?)\n\
(no ? ? ?)\n\
(bad ? ?)\n";

const YES: usize = 0;

const NO: usize = 1;

const BAD: usize = 2;

// Where each form starts, and where the last one ends.
const STARTS: [usize; 4] = [0, 10, 21, 31];

// The line of an answer, from place `at` of the lent list on; where it ends. Bytes past the list's end are left out.
#[tactic(auto, unfolding(crate::specs::Answers::answer_text))]
pub fn put_answer(answer: Answer, out: &mut [u8], at: usize) -> usize
    ensures { Wrote out.old at (answer_text answer) result out.new }
{
    match answer {
        Answer::Granted { selected, ended } => {
            put(YES, selected as u64, ended as u64, 0, out, at)
        }
        Answer::Broken { rule, selected } => put(NO, 30, rule as u64, selected as u64, out, at),
        Answer::Refused { number } => put(NO, number as u64, 0, 0, out, at),
    }
}

// The line of a refused input, in the same way.
#[tactic(auto, unfolding(crate::specs::Answers::bad_text))]
pub fn put_bad(number: u64, line: u64, out: &mut [u8], at: usize) -> usize
    ensures { Wrote out.old at (bad_text number line) result out.new }
{
    put(BAD, number, line, 0, out, at)
}

fn put(form: usize, first: u64, second: u64, third: u64, out: &mut [u8], at: usize) -> usize
    ensures { Wrote out.old at (line_text form first second third) result out.new }
{
    forms::write_line(&FORMS, &STARTS, form, &[first, second, third], out, at)
}
