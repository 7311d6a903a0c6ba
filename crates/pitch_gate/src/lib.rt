// The gate for a controller: thin C functions on byte slices over the crate `texts`. Each returns the number of the refusal, 0 for none,
// and fills four lent numbers: which text or space the number is about, its place there, and the bytes of output and of state written.
// On a refusal every byte of a lent space stays.
#![tactic(auto)]

ghost use Rattle.std.specs.Prelude.{◌≡◌, length};
ghost use Rattle.enforcement.specs.States.{fresh};
ghost use Rattle.forms.specs.Refusals.{numbered, write_number};
ghost use Rattle.rule_text.specs.Reading.{read_lines, loaded_of};
ghost use Rattle.rule_text.specs.Writing.{text_of};
ghost use Rattle.policy_text.specs.Reading.{policies_read};
ghost use Rattle.policy_text.specs.Writing.{policies_text};
ghost use Rattle.state_text.specs.Saving.{saved_text};
ghost use Rattle.texts.specs.Response.{response_of};
ghost use Rattle.texts.specs.SavedRuns.{load_texts, rules_in, report_of, output_report, rules_copy_report, saved_report, state_in, copy_report, saved_outcome};
ghost use Rattle.texts.specs.Policies.{rules_from_report, policies_from_report};
ghost use Rattle.texts.specs.JoinedTexts.{joined_with, join_report};
ghost use Rattle.pitch_gate.specs.Reports.{version, text_number, Told, Given, Handed, response_report, rules_report, texts_report};

use forms::WriteRefusal;
use texts::{Refused, Text, Written};

// 10,000 for each major version, 100 for each minor one and 1 for each correction: this is 2.4.0.
const VERSION: u64 = 20_400;

// What is only read is not written.
const NOTHING: Written = Written {
    output: 0,
    state: 0,
};

// The version of the library that is linked.
#[unsafe(no_mangle)]
pub extern "C" fn pitch_gate_version() -> u64
    ensures { result ≡ version }
{
    VERSION
}

// The program `gate` as a function: rules, `(steps)` and steps in, its whole output out.
#[unsafe(no_mangle)]
pub extern "C" fn pitch_gate_respond(input: &[u8], output: &mut [u8], report: &mut [u64; 4]) -> u64
    ensures { Given (output_report (response_of input.now) (length output.old)) (response_of input.now) output.old result report.old output.new report.new }
{
    tell(
        response_report(texts::respond(input, output), input),
        report,
    )
}

// A rule list: 0, or 10 to 14 with the line.
#[unsafe(no_mangle)]
pub extern "C" fn pitch_gate_check_rules(rules: &[u8], report: &mut [u64; 4]) -> u64
    ensures { Told (rules_report (loaded_of (read_lines rules.now))) result report.old report.new }
{
    match rule_text::read_rules(rules) {
        Ok(_) => tell(Ok(NOTHING), report),
        Err(bad) => tell(Err(Refused::of_line(Text::Rules, bad)), report),
    }
}

// A rule list, read and written again.
#[unsafe(no_mangle)]
pub extern "C" fn pitch_gate_copy_rules(rules: &[u8], copy: &mut [u8], report: &mut [u64; 4]) -> u64
    ensures { Given (rules_copy_report (loaded_of (read_lines rules.now)) (length copy.old)) (text_of (rules_in rules.now)) copy.old result report.old copy.new report.new }
{
    tell(texts::copy_rules(rules, copy), report)
}

// A rule list, then a saved state under it: 0, or the text that is refused.
#[unsafe(no_mangle)]
pub extern "C" fn pitch_gate_check_state(rules: &[u8], state: &[u8], report: &mut [u64; 4]) -> u64
    ensures { Told (texts_report (load_texts rules.now state.now)) result report.old report.new }
{
    match texts::load(rules, state).check() {
        Ok(()) => tell(Ok(NOTHING), report),
        Err(refused) => tell(Err(refused), report),
    }
}

// A saved state, read under the rules and written again.
#[unsafe(no_mangle)]
pub extern "C" fn pitch_gate_copy_state(
    rules: &[u8],
    state: &[u8],
    copy: &mut [u8],
    report: &mut [u64; 4],
) -> u64
    ensures { Given (copy_report (load_texts rules.now state.now) (length copy.old)) (state_in (load_texts rules.now state.now)) copy.old result report.old copy.new report.new }
{
    tell(texts::copy_state(rules, state, copy), report)
}

// The saved state that a first run starts from.
#[unsafe(no_mangle)]
pub extern "C" fn pitch_gate_fresh_state(state: &mut [u8], report: &mut [u64; 4]) -> u64
    ensures { Given (saved_report (saved_text fresh) (length state.old)) (saved_text fresh) state.old result report.old state.new report.new }
{
    tell(texts::fresh_state(state), report)
}

// Our rule list from policies of GEMRBAC-DSL.
#[unsafe(no_mangle)]
pub extern "C" fn pitch_gate_rules_from_policies(
    policies: &[u8],
    rules: &mut [u8],
    report: &mut [u64; 4],
) -> u64
    ensures { Given (rules_from_report (loaded_of (policies_read policies.now)) (length rules.old)) (text_of (loaded_of (policies_read policies.now)).list) rules.old result report.old rules.new report.new }
{
    tell(texts::rules_from_policies(policies, rules), report)
}

// And policies from our rule list.
#[unsafe(no_mangle)]
pub extern "C" fn pitch_gate_policies_from_rules(
    rules: &[u8],
    policies: &mut [u8],
    report: &mut [u64; 4],
) -> u64
    ensures { Given (policies_from_report (loaded_of (read_lines rules.now)) (length policies.old)) (policies_text (rules_in rules.now)) policies.old result report.old policies.new report.new }
{
    tell(texts::policies_from_rules(rules, policies), report)
}

// Two rule lists joined into one.
#[unsafe(no_mangle)]
pub extern "C" fn pitch_gate_join_rules(
    first: &[u8],
    second: &[u8],
    joined: &mut [u8],
    report: &mut [u64; 4],
) -> u64
    ensures { Given (join_report (loaded_of (read_lines first.now)) (loaded_of (read_lines second.now)) (length joined.old)) (text_of (joined_with (rules_in first.now) (loaded_of (read_lines second.now))).list) joined.old result report.old joined.new report.new }
{
    tell(texts::join_rules(first, second, joined), report)
}

// Steps over a saved state: rules, saved state and steps in, the answers and the new saved state out.
#[unsafe(no_mangle)]
pub extern "C" fn pitch_gate_run_steps(
    rules: &[u8],
    state: &[u8],
    steps: &[u8],
    answers: &mut [u8],
    next: &mut [u8],
    report: &mut [u64; 4],
) -> u64
    ensures { Handed (saved_outcome rules.now state.now steps.now) answers.old next.old result report.old answers.new next.new report.new }
{
    tell(texts::run_saved(rules, state, steps, answers, next), report)
}

// ---- reports

// What was written of the response to an input, or its 18 with the length that is needed.
fn response_report(written: Result<usize, WriteRefusal>, input: &[u8]) -> Result<Written, Refused>
    ensures { report_of result ≡ response_report (numbered write_number written) (length (response_of input.now)) }
{
    match written {
        Ok(output) => Ok(Written { output, state: 0 }),
        Err(refusal) => Err(Refused {
            text: Text::OutputSpace,
            number: refusal.number(),
            place: texts::response_length(input),
        }),
    }
}

// The number is returned, the rest goes to the four lent numbers.
fn tell(told: Result<Written, Refused>, report: &mut [u64; 4]) -> u64
    ensures { Told (report_of told) result report.old report.new }
{
    match told {
        Ok(written) => {
            *report = [
                text_number(Text::None),
                0,
                written.output as u64,
                written.state as u64,
            ];
            0
        }
        Err(refused) => {
            *report = [text_number(refused.text), refused.place as u64, 0, 0];
            refused.number
        }
    }
}

// The numbers of the C interface.
#[tactic(auto, unfolding(crate::specs::Reports::text_number))]
fn text_number(text: Text) -> u64
    ensures { result ≡ text_number text }
{
    match text {
        Text::None => 0,
        Text::Rules => 1,
        Text::State => 2,
        Text::Steps => 3,
        Text::OutputSpace => 4,
        Text::StateSpace => 5,
        Text::Policies => 6,
        Text::SecondRules => 7,
    }
}
