// Steps run over a saved state: rules, saved text and steps in, answers and the new saved text out, so that one end hands its state to
// the other.
ghost use Rattle.std.specs.Prelude.{◌≡◌, ◌≢◌, true, [], None, Err, MatchResult, ◌≤◌, ◌<◌, length, take};
ghost use Rattle.forms.specs.Writing.{Wrote};
ghost use Rattle.rules.specs.Acceptance.{list_accepted};
ghost use Rattle.enforcement.specs.States.{fresh, state_accepted};
ghost use Rattle.enforcement.specs.Reached.{Accepted};
ghost use Rattle.rule_text.specs.Refusals.{refusal_number};
ghost use Rattle.rule_text.specs.Reading.{list_of, no_rights, read_lines, loaded_of, loaded_as};
ghost use Rattle.rule_text.specs.Writing.{text_of};
ghost use Rattle.state_text.specs.Reading.{read_state};
ghost use Rattle.state_text.specs.Saving.{saved_text};
ghost use Rattle.step_text.specs.Lines.{read_steps, bad_line};
ghost use Rattle.step_text.specs.Answers.{answers_text};
ghost use Rattle.step_text.specs.Running.{text_run};
ghost use Rattle.texts.specs.SavedRuns.{holding, state_under, load_texts, loaded_texts, rules_in, refused_report, report_of, ErrIsRefusal, lent_to, rules_copy_report, list_report, saved_report, state_in, copy_report, steps_under, saved_outcome, Ran};

use crate::responses::MOST_BYTES;
use enforcement::State;
use rule_text::BadLine;
use rules::RuleList;

// Which text or lent space a refusal is about. Of two rule lists that are joined the first is the rules.
#[derive(Clone, Copy, Debug, PartialEq, Eq)]
pub enum Text {
    None,
    Rules,
    State,
    Steps,
    OutputSpace,
    StateSpace,
    Policies,
    SecondRules,
}

// What two texts hold: number 0 with the list and the state; or the text that is refused, its number, its line (for 17 the rule), the list
// that was read, which is empty where the rules are refused, and a fresh state. No Result: a list in order is handed out with a refused
// state too (docs/DECISIONS.md).
#[derive(Clone, Copy)]
pub struct LoadedTexts {
    pub text: Text,
    pub number: u64,
    pub place: usize,
    pub list: RuleList,
    pub state: State,
}

// The bytes of output and of state that were written. The output is the answers to steps, the copy of a rule list, a rule list in the other
// language, or a joined one.
#[derive(Clone, Copy, Debug, PartialEq, Eq)]
pub struct Written {
    pub output: usize,
    pub state: usize,
}

// The refusal, with its text and place: a line, for 17 and 56 a rule, for 18 the bytes that the space needs. Every byte of a lent space
// stays.
#[derive(Clone, Copy, Debug, PartialEq, Eq)]
pub struct Refused {
    pub text: Text,
    pub number: u64,
    pub place: usize,
}

impl LoadedTexts {
    // Nothing is refused.
    pub fn check(&self) -> Result<(), Refused>
        ensures { MatchResult result (λ _. self.now.number ≡ 0) (λ refused. (self.now.number ≢ 0) × (refused ≡ record { text = self.now.text; number = self.now.number; place = self.now.place })) }
    {
        if self.number != 0 {
            return Err(Refused {
                text: self.text,
                number: self.number,
                place: self.place,
            });
        }
        Ok(())
    }
}

impl Refused {
    // A line of the text.
    pub fn of_line(text: Text, bad: BadLine) -> Refused
        ensures given { report_of (Err result) ≡ refused_report text (refusal_number bad.refusal) bad.line }
        ensures refused { 0 < result.number }
    {
        Refused {
            text,
            number: bad.refusal.number(),
            place: bad.line,
        }
    }

    // The space needs so many bytes.
    pub(crate) fn short(space: Text, needed: usize) -> Refused
        ensures given { report_of (Err result) ≡ refused_report space 18 needed }
        ensures refused { 0 < result.number }
    {
        Refused {
            text: space,
            number: 18,
            place: needed,
        }
    }
}

// The steps run from the saved state on, under the rules. Refused are steps that are too long (19), then the rules, the saved state and
// the steps, then a space that is too short (18): the answers' first. On a refusal every byte of both spaces stays.
pub fn run_saved(
    rules: &[u8],
    saved: &[u8],
    steps: &[u8],
    answers: &mut [u8],
    next: &mut [u8],
) -> Result<Written, Refused>
    ensures given { Ran (saved_outcome rules.now saved.now steps.now) answers.old next.old (report_of result) answers.new next.new }
    ensures refused { ErrIsRefusal result }
{
    if MOST_BYTES < steps.len() {
        return Err(Refused {
            text: Text::Steps,
            number: 19,
            place: 0,
        });
    }
    let loaded = load(rules, saved);
    loaded.check()?;
    if let Some(bad) = step_text::first_bad_step(steps) {
        return Err(Refused {
            text: Text::Steps,
            number: 10,
            place: bad,
        });
    }
    run_steps(loaded.list, loaded.state, steps, answers, next)
}

// The steps run, and both texts written where both have room. The answers are measured first, by writing them into a small space that keeps
// those to a few steps. It is kept apart, so that what it holds takes no stack while the texts are read.
#[inline(never)]
fn run_steps(
    list: RuleList,
    state: State,
    steps: &[u8],
    answers: &mut [u8],
    next: &mut [u8],
) -> Result<Written, Refused>
    requires { (length steps.now ≤ 65536) × (bad_line (read_steps 1 steps.now) ≡ None) × Accepted state }
    ensures given { Ran (steps_under list state (read_steps 1 steps.now)) answers.old next.old (report_of result) answers.new next.new }
    ensures refused { ErrIsRefusal result }
{
    let mut kept = [0u8; 512];
    let measured = step_text::put_answers(list, state, steps, &mut kept, 0);
    let size = measured.place;
    if answers.len() < size {
        return Err(Refused::short(Text::OutputSpace, size));
    }
    let Ok(written) = state_text::write_state(measured.state, next) else {
        let needed = state_text::saved_length(measured.state);
        return Err(Refused::short(Text::StateSpace, needed));
    };
    let place = write_answers(list, state, steps, &kept, size, answers);
    Ok(Written {
        output: place,
        state: written,
    })
}

// The answers that were kept; the steps run once more where their answers were too long to be kept.
fn write_answers(
    list: RuleList,
    state: State,
    steps: &[u8],
    kept: &[u8],
    size: usize,
    answers: &mut [u8],
) -> usize
    requires { (size ≤ length answers.old) × (size ≤ length kept.now → take size kept.now ≡ answers_text (text_run list state steps.now)) }
    ensures { Wrote answers.old 0 (answers_text (text_run list state steps.now)) result answers.new }
{
    if size <= kept.len() {
        return copy_text(&kept[..size], answers);
    }
    let answered = step_text::put_answers(list, state, steps, answers, 0);
    answered.place
}

// A text at the front of a lent space that has room for it.
fn copy_text(text: &[u8], out: &mut [u8]) -> usize
    requires { length text.now ≤ length out.old }
    ensures { Wrote out.old 0 text.now result out.new }
{
    out[..text.len()].copy_from_slice(text);
    text.len()
}

// A rule list, read and written again.
pub fn copy_rules(rules: &[u8], copy: &mut [u8]) -> Result<Written, Refused>
    ensures given { (report_of result ≡ rules_copy_report (loaded_of (read_lines rules.now)) (length copy.old)) × (copy.new ≡ lent_to (report_of result) (text_of (rules_in rules.now)) copy.old) }
    ensures refused { ErrIsRefusal result }
{
    write_list(Text::Rules, rule_text::read_rules(rules), copy)
}

// The text of a list that was read, or the refusal of what it was read from; then a space that is too short (18).
pub(crate) fn write_list(
    source: Text,
    read: Result<RuleList, BadLine>,
    out: &mut [u8],
) -> Result<Written, Refused>
    requires { list_accepted (loaded_as read).list ≡ true }
    ensures given { (report_of result ≡ list_report source (loaded_as read) (length out.old)) × (out.new ≡ lent_to (report_of result) (text_of (loaded_as read).list) out.old) }
    ensures refused { ErrIsRefusal result }
{
    let list = match read {
        Ok(list) => list,
        Err(bad) => return Err(Refused::of_line(source, bad)),
    };
    let Ok(output) = rule_text::write_rules(list, out) else {
        return Err(Refused::short(Text::OutputSpace, rule_text::rules_length(list)));
    };
    Ok(Written { output, state: 0 })
}

// A saved state, read under the rules and written again.
pub fn copy_state(rules: &[u8], saved: &[u8], copy: &mut [u8]) -> Result<Written, Refused>
    ensures given { (report_of result ≡ copy_report (load_texts rules.now saved.now) (length copy.old)) × (copy.new ≡ lent_to (report_of result) (state_in (load_texts rules.now saved.now)) copy.old) }
    ensures refused { ErrIsRefusal result }
{
    let loaded = load(rules, saved);
    loaded.check()?;
    write_saved(loaded.state, copy)
}

// The text of the fresh state: the saved state that a first run starts from.
pub fn fresh_state(out: &mut [u8]) -> Result<Written, Refused>
    ensures given { (report_of result ≡ saved_report (saved_text fresh) (length out.old)) × (out.new ≡ lent_to (report_of result) (saved_text fresh) out.old) }
    ensures refused { ErrIsRefusal result }
{
    write_saved(State::fresh(), out)
}

// The text of a state that 40 does not refuse.
fn write_saved(state: State, out: &mut [u8]) -> Result<Written, Refused>
    requires { state_accepted state ≡ true }
    ensures given { (report_of result ≡ saved_report (saved_text state) (length out.old)) × (out.new ≡ lent_to (report_of result) (saved_text state) out.old) }
    ensures refused { ErrIsRefusal result }
{
    let Ok(written) = state_text::write_state(state, out) else {
        return Err(Refused::short(Text::StateSpace, state_text::saved_length(state)));
    };
    Ok(Written {
        output: 0,
        state: written,
    })
}

// The rules, and the state under them. It is kept apart, so that what it holds takes no stack while steps run.
#[inline(never)]
pub fn load(rules: &[u8], saved: &[u8]) -> LoadedTexts
    ensures { result ≡ loaded_texts (rules_in rules.now) (load_texts rules.now saved.now) }
{
    let mut loaded = nothing_read();
    match rule_text::read_rules(rules) {
        Ok(list) => {
            loaded.list = list;
            under_rules(saved, &mut loaded);
        }
        Err(BadLine { refusal, line }) => {
            loaded.text = Text::Rules;
            loaded.number = refusal.number();
            loaded.place = line;
        }
    }
    loaded
}

// The state under the rules of the list, put in. It is kept apart from `load`, so that what it holds takes no stack while the rules are read.
#[inline(never)]
fn under_rules(saved: &[u8], loaded: &mut LoadedTexts)
    requires { loaded.old ≡ loaded_texts loaded.old.list (holding loaded.old.list fresh) }
    ensures { loaded.new ≡ loaded_texts loaded.old.list (state_under loaded.old.list (read_state loaded.old.list saved.now)) }
{
    match state_text::read_state(loaded.list, saved) {
        Ok(state) => loaded.state = state,
        Err(refusal) => {
            loaded.text = Text::State;
            loaded.number = refusal.number();
            loaded.place = refusal.place();
        }
    }
}

// Nothing is read yet: the empty list and the fresh state. It is kept apart, so that what it holds takes no stack while the texts are read.
#[inline(never)]
fn nothing_read() -> LoadedTexts
    ensures { result ≡ loaded_texts (list_of no_rights []) (holding (list_of no_rights []) fresh) }
{
    LoadedTexts {
        text: Text::None,
        number: 0,
        place: 0,
        list: rule_text::no_rules(),
        state: State::fresh(),
    }
}
