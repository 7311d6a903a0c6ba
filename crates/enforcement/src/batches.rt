// A few steps at once, by value: for a caller that holds no list of them.
ghost use Rattle.std.specs.Prelude.{◌≡◌};
ghost use Rattle.enforcement.specs.Batches.{batch_run, batch_steps};

use crate::states::State;
use rules::RuleList;
use steps::{Answer, Refusal, Step};

// The first `length` steps; all of them where the length is above their number. An array with its length: the gate takes no heap.
#[derive(Clone, Copy)]
pub struct Batch {
    pub steps: [Step; 32],
    pub length: usize,
}

impl Batch {
    // The most steps that a batch holds.
    pub const MOST: usize = 32;

    fn used(&self) -> &[Step]
        ensures { result.now ≡ batch_steps self.now }
    {
        &self.steps[..self.length.min(Batch::MOST)]
    }
}

// The answer to one step. A public type of one field: it stays.
#[derive(Clone, Copy)]
pub struct Entry {
    pub answer: Answer,
}

// The state after the last step, and the answers in the order of the steps; an entry beyond them holds a 40.
#[derive(Clone, Copy)]
pub struct BatchRun {
    pub state: State,
    pub entries: [Entry; 32],
}

impl State {
    // The steps run in their order, each from the state that the last one handed back. 40 is tested once for all: no step changes the
    // list, and each hands back a state that 40 does not refuse.
    pub fn run_batch(mut self, list: RuleList, batch: Batch) -> BatchRun
        ensures { result ≡ batch_run list self batch }
    {
        let mut entries = [Entry {
            answer: Answer::Refused {
                number: Refusal::NotAccepted.number(),
            },
        }; 32];
        if !self.is_accepted_under(&list) {
            return BatchRun {
                state: self,
                entries,
            };
        }
        for (i, step) in batch.used().iter().enumerate() {
            entries[i] = Entry {
                answer: self.decide(&list, *step),
            };
        }
        BatchRun {
            state: self,
            entries,
        }
    }
}
