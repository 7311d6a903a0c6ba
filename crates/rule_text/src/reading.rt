// Reading a rule list: its rights, then its rules, a line at a time, as long as the lines are good.
ghost use Rattle.std.specs.Prelude.{◌≡◌, [], MatchResult};
ghost use Rattle.forms.specs.Refusals.{numbered};
ghost use Rattle.rule_text.specs.Refusals.{refusal_number, Accepted, RefusedFor};
ghost use Rattle.rule_text.specs.Reading.{rule_read, read_line, read_lines, no_rights, list_of, prefix_of, prefix_told, loaded_as, read_rules};

use crate::guesses::likely_form;
use crate::lines;
use crate::lines::{FORMS, RULE_FORM_COUNT, STARTS};
use crate::refusals::{BadLine, Refusal};
use crate::rights::read_rights;
use rules::{Right, RightSlot, Rule, RuleList, Slot};

// A good line: its rule, and how many bytes it has.
#[derive(Clone, Copy)]
pub struct Parsed {
    pub rule: Rule,
    pub length: usize,
}

// The good lines at the front of a text: their rights, rules and bytes, the line after them, and its refusal, none where the text ends
// there.
#[derive(Clone, Copy)]
pub struct Prefix {
    pub list: RuleList,
    pub length: usize,
    pub refusal: Option<Refusal>,
    pub line: usize,
}

// Reads the line at the front of a text, where this number is the next and every right was read: 10, then 11, then 12, then 13 and 14.
fn read_line(text: &[u8], number: u64) -> Result<Parsed, Refusal>
    ensures { numbered refusal_number result ≡ read_line number text.now }
{
    let Some(found) = forms::find_likely(&FORMS, &STARTS, likely_form(text, number), text) else {
        return Err(Refusal::NoForm);
    };
    if !forms::line_in_range(&FORMS, &STARTS, found.form, &found.values) {
        return Err(Refusal::OutOfRange);
    }
    if RULE_FORM_COUNT <= found.form || found.values[0] != number {
        return Err(Refusal::NotNext);
    }
    rule_read(lines::rule_of(found.form, &found.values), found.length)
}

// A rule that was found is accepted unless 13 or 14 refuses it.
#[tactic(auto, unfolding(crate::specs::Reading::rule_read))]
pub fn rule_read(rule: Rule, length: usize) -> Result<Parsed, Refusal>
    ensures { numbered refusal_number result ≡ rule_read rule length }
{
    check(rule)?;
    Ok(Parsed { rule, length })
}

fn check(rule: Rule) -> Result<(), Refusal>
    ensures { MatchResult result (λ _. Accepted rule) (RefusedFor rule) }
{
    if !rule.is_distinct() {
        return Err(Refusal::SameTwice);
    }
    if !rule.is_sound() {
        return Err(Refusal::Unsound);
    }
    Ok(())
}

// The empty list: each slot holds the filler, and no right is stated.
#[tactic(auto, unfolding(crate::specs::Reading::list_of, crate::specs::Reading::unused_slots, crate::specs::Reading::no_rights))]
pub fn no_rules() -> RuleList
    ensures { result ≡ list_of no_rights [] }
{
    RuleList {
        slots: [Slot {
            rule: lines::filler(),
        }; 128],
        length: 0,
        rights: [RightSlot {
            right: Right::Unstated,
        }; 6],
    }
}

// Reads lines as long as they are good. Each line is read from the byte after the last line's end.
pub fn read_prefix(text: &[u8]) -> Prefix
    ensures { prefix_told result ≡ prefix_of (read_lines text.now) }
{
    let read = read_rights(text);
    let mut list = no_rules();
    let rights = read.rights;
    list.rights = rights;
    let mut length = read.length;
    let mut rest = &text[length..];
    let mut line = read.lines + 1;
    while !rest.is_empty() {
        let at = list.length;
        let answer = read_line(rest, (at + 1) as u64);
        let Ok(parsed) = answer else {
            return Prefix {
                list,
                length,
                refusal: answer.err(),
                line,
            };
        };
        list.slots[at] = Slot { rule: parsed.rule };
        list.length = at + 1;
        rest = &rest[parsed.length..];
        length += parsed.length;
        line += 1;
    }
    Prefix {
        list,
        length,
        refusal: None,
        line,
    }
}

// Reads a whole text as a rule list: all of it, or the first bad line and nothing.
pub fn read_rules(text: &[u8]) -> Result<RuleList, BadLine>
    ensures { loaded_as result ≡ read_rules text.now }
{
    let prefix = read_prefix(text);
    if let Some(refusal) = prefix.refusal {
        return Err(BadLine {
            refusal,
            line: prefix.line,
        });
    }
    Ok(prefix.list)
}
