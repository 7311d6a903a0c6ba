// Writing a rule list: 40, then 18, or its text.
ghost use Rattle.std.specs.Prelude.{◌≡◌, ◌<◌};
ghost use Rattle.forms.specs.Writing.{Wrote};
ghost use Rattle.forms.specs.Refusals.{numbered, write_number};
ghost use Rattle.rules.specs.Acceptance.{rules_of};
ghost use Rattle.rule_text.specs.Lines.{line_text, right_text, rights_text, rule_text, list_text};
ghost use Rattle.rule_text.specs.Writing.{text_of, rules_length, written_rules, lent_after_rules};

use crate::lines;
use crate::lines::{FORMS, Line, STARTS};
use forms::WriteRefusal;
use rules::{Right, RightSlot, Rule, RuleList};

// Writes one line at a place, and returns the place after it. A byte past the end is left out.
fn put_line(line: Line, out: &mut [u8], at: usize) -> usize
    ensures { Wrote out.old at (line_text line) result out.new }
{
    forms::write_line(&FORMS, &STARTS, line.form, &line.values, out, at)
}

// A kind that has no right has no line.
#[tactic(auto, using(crate::proofs::Texts::no_line), unfolding(crate::specs::Lines::right_text))]
fn put_right(kind: usize, right: Right, out: &mut [u8], at: usize) -> usize
    requires { kind < 6 }
    ensures { Wrote out.old at (right_text kind right) result out.new }
{
    match right {
        Right::Unstated => at,
        Right::Permission(permission) => put_line(lines::right_line(kind, permission), out, at),
    }
}

// Writes the lines of the rights from the first byte on, and returns where they end.
fn put_rights(rights: &[RightSlot; 6], out: &mut [u8]) -> usize
    ensures { Wrote out.old 0 (rights_text 0 rights.now) result out.new }
{
    let mut at = 0;
    for (kind, slot) in rights.iter().enumerate() {
        at = put_right(kind, slot.right, out, at);
    }
    at
}

#[tactic(auto, unfolding(crate::specs::Lines::rule_text))]
fn put_rule(number: u64, rule: Rule, out: &mut [u8], at: usize) -> usize
    ensures { Wrote out.old at (rule_text number rule) result out.new }
{
    put_line(lines::line_of(number, rule), out, at)
}

// Writes the lines of the rules from a place on, and returns where they end.
fn put_rules(list: &RuleList, out: &mut [u8], start: usize) -> usize
    ensures { Wrote out.old start (list_text rule_text 1 (rules_of list.now)) result out.new }
{
    let mut at = start;
    for (i, slot) in list.used().iter().enumerate() {
        at = put_rule(i as u64 + 1, slot.rule, out, at);
    }
    at
}

// Writes the lines of a list from the first byte on, the rights before the rules, and returns where they end.
fn put_list(list: &RuleList, out: &mut [u8]) -> usize
    ensures { Wrote out.old 0 (text_of list.now) result out.new }
{
    let at = put_rights(&list.rights, out);
    put_rules(list, out, at)
}

// The bytes of an accepted list's text: the space that a write of it takes. Of a list that 40 refuses, 0.
pub fn rules_length(list: RuleList) -> usize
    ensures { result ≡ rules_length list }
{
    if !list.is_accepted() {
        return 0;
    }
    let mut space = [0u8; 1];
    put_list(&list, &mut space)
}

// Writes a rule list. Its length is measured in the empty part of the lent space, so that a refusal leaves every byte.
pub fn write_rules(list: RuleList, out: &mut [u8]) -> Result<usize, WriteRefusal>
    ensures { (numbered write_number result ≡ written_rules list out.old) × (out.new ≡ lent_after_rules list out.old) }
{
    if !list.is_accepted() {
        return Err(WriteRefusal::NotAccepted);
    }
    let needed = put_list(&list, &mut out[..0]);
    if out.len() < needed {
        return Err(WriteRefusal::NoRoom);
    }
    Ok(put_list(&list, out))
}
