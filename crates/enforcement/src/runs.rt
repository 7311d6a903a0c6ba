// A list of steps handed over whole, with a list for its answers.
ghost use Rattle.std.specs.Prelude.{◌≡◌};
ghost use Rattle.steps.specs.Answers.{packed_of, word_of};
ghost use Rattle.enforcement.specs.Runs.{refusal_of, run_number, admitted, RunGiven, RunPlain};
ghost use Rattle.enforcement.specs.Safety.{RunSafe};

use crate::states::State;
use rules::RuleList;
use steps::{Answer, Step};

// 40 or 18 where the list is refused as a whole, else 0; and the state after the last step. What a list of steps answers is plain numbers.
#[derive(Clone, Copy)]
pub struct Ran {
    pub number: u64,
    pub state: State,
}

// Why a list of steps is refused as a whole.
#[derive(Clone, Copy, Debug, PartialEq, Eq)]
pub enum RunRefusal {
    NotAccepted,
    NoRoom,
}

impl RunRefusal {
    fn number(self) -> u64
        ensures { result ≡ run_number self }
    {
        match self {
            RunRefusal::NotAccepted => 40,
            RunRefusal::NoRoom => 18,
        }
    }
}

// The steps run in their order, each from the state that the last one handed back. The answer to step i goes to entry i as one number;
// entries beyond the steps stay. 40, then 18, refuse the list as a whole: then the state and every entry stay. Where all six kinds have rights
// and a user holds none of them, his own steps change nobody's roles and no role's permissions.
pub fn run(list: RuleList, mut state: State, steps: &[Step], answers: &mut [u64]) -> Ran
    ensures given { RunGiven list state steps.now answers.old result answers.new }
    ensures plain { RunPlain list state steps.now answers.old result answers.new }
    ensures safe { RunSafe list state steps.now result }
{
    if let Err(refusal) = admit(&list, &state, steps.len(), answers.len()) {
        return Ran {
            number: refusal.number(),
            state,
        };
    }
    // By index: what is written through a `zip` with `iter_mut` is not known to a proof.
    for (i, step) in steps.iter().enumerate() {
        answers[i] = word(state.decide(&list, *step));
    }
    Ran { number: 0, state }
}

// 40 where the list or the state is refused, else 18 where there is no room for an answer to each step.
#[tactic(auto, unfolding(crate::specs::Runs::refusal_of))]
fn admit(list: &RuleList, state: &State, steps: usize, room: usize) -> Result<(), RunRefusal>
    ensures { admitted result ≡ refusal_of list.now state.now steps room }
{
    if !state.is_accepted_under(list) {
        return Err(RunRefusal::NotAccepted);
    }
    if room < steps {
        return Err(RunRefusal::NoRoom);
    }
    Ok(())
}

// The answer as one number; `Answer::of_word` takes it apart. Every answer of the gate fits.
fn word(answer: Answer) -> u64
    ensures { result ≡ word_of answer }
{
    match answer {
        Answer::Granted { selected, ended } => packed(0, 0, selected, ended),
        Answer::Broken { rule, selected } => packed(30, rule, selected, 0),
        Answer::Refused { number } => packed(number, 0, 0, 0),
    }
}

fn packed(number: usize, rule: usize, selected: usize, ended: usize) -> u64
    ensures { result ≡ packed_of number rule selected ended }
{
    (number % 64 + rule % 256 * 64 + selected % 256 * 16384 + ended % 4096 * 4194304) as u64
}
