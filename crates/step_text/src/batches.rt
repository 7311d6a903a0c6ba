// Steps read and answers written a batch at a time.
ghost use Rattle.forms.specs.Writing.{Wrote};
ghost use Rattle.step_text.specs.Batches.{ReadsFront, entries_text};

use crate::answers::put_answer;
use crate::lines::read_step;
use enforcement::{Batch, Entry};
use steps::{Acting, Step};

// The steps that were read, and how many bytes their lines have.
#[derive(Clone, Copy)]
pub struct BatchRead {
    pub batch: Batch,
    pub length: usize,
}

// Reads the lines at the front of a text, as long as they are steps and the batch has room.
pub fn read_batch(text: &[u8]) -> BatchRead
    ensures { ReadsFront text.now result }
{
    let mut batch = Batch {
        steps: [Step {
            kind: 0,
            first: 0,
            second: 0,
            third: 0,
            fourth: 0,
            x: 0,
            y: 0,
            by: Acting::Nobody,
        }; 32],
        length: 0,
    };
    let mut rest = text;
    // Not a `for` over the slots: that lends the batch, and the loop's invariant cannot name its steps.
    while batch.length < Batch::MOST {
        let Some(line) = read_step(rest) else {
            break;
        };
        batch.steps[batch.length] = line.step;
        batch.length += 1;
        rest = &rest[line.length..];
    }
    BatchRead {
        batch,
        length: text.len() - rest.len(),
    }
}

// The lines of answers, from place `at` of the lent list on; where they end. Bytes past the list's end are left out.
pub fn put_entries(entries: &[Entry], out: &mut [u8], at: usize) -> usize
    ensures { Wrote out.old at (entries_text entries.now) result out.new }
{
    let mut place = at;
    for entry in entries {
        place = put_answer(entry.answer, out, place);
    }
    place
}
