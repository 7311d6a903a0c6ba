// Reading policies: a line at a time, as long as the lines are good.
ghost use Rattle.std.specs.Prelude.{◌≡◌};
ghost use Rattle.forms.specs.Refusals.{numbered};
ghost use Rattle.rule_text.specs.Refusals.{refusal_number};
ghost use Rattle.rule_text.specs.Reading.{loaded_as};
ghost use Rattle.policy_text.specs.Reading.{read_policy, read_policies};

use crate::lines;
use crate::lines::{FORMS, STARTS};
use rule_text::{BadLine, Parsed, Refusal};
use rules::{RuleList, Slot};

// Reads the policy at the front of a text, where this number is the next: 55, then 11, then 12, then 13.
fn read_policy(text: &[u8], number: u64) -> Result<Parsed, Refusal>
    ensures { numbered refusal_number result ≡ read_policy number text.now }
{
    let Some(found) = forms::find(&FORMS, text) else {
        return Err(Refusal::NoPolicy);
    };
    if !forms::line_in_range(&FORMS, &STARTS, found.form, &found.values) {
        return Err(Refusal::OutOfRange);
    }
    if found.values[0] != number {
        return Err(Refusal::NotNext);
    }
    rule_text::rule_read(lines::rule_of(found.form, &found.values), found.length)
}

// Reads a whole text of policies as a rule list: all of it, or the first bad line and nothing. Each line is read from the byte after the
// last line's end.
pub fn read_policies(text: &[u8]) -> Result<RuleList, BadLine>
    ensures { loaded_as result ≡ read_policies text.now }
{
    let mut list = rule_text::no_rules();
    let mut rest = text;
    while !rest.is_empty() {
        let line = list.length + 1;
        let answer = read_policy(rest, line as u64);
        let Ok(parsed) = answer else {
            return Err(BadLine {
                refusal: answer.unwrap_err(),
                line,
            });
        };
        list.slots[list.length] = Slot { rule: parsed.rule };
        list.length = line;
        rest = &rest[parsed.length..];
    }
    Ok(list)
}
