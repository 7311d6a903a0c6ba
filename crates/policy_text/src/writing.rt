// Writing a rule list as policies: 40, then 56, then 18, or its text.
ghost use Rattle.std.specs.Prelude.{◌≡◌, map};
ghost use Rattle.forms.specs.Writing.{Wrote};
ghost use Rattle.rules.specs.Acceptance.{rule_of, rules_of};
ghost use Rattle.rule_text.specs.Lines.{list_text};
ghost use Rattle.policy_text.specs.Lines.{policy_text, has_policy};
ghost use Rattle.policy_text.specs.Writing.{by_number, has_right_line, without_from, without_policy, written_policies, lent_after_policies};

use crate::lines;
use crate::lines::{FORM_COUNT, FORMS, STARTS};
use crate::refusals::WriteRefusal;
use rules::{RightSlot, Rule, RuleList, Slot};

#[tactic(auto, unfolding(crate::specs::Lines::has_policy))]
fn has_policy(rule: Rule) -> bool
    ensures { result ≡ has_policy rule }
{
    lines::policy_of(0, rule).form < FORM_COUNT
}

// Some kind has a right, and so a line.
fn has_right_line(rights: &[RightSlot; 6]) -> bool
    ensures { result ≡ has_right_line rights.now }
{
    rights
        .iter()
        .any(|slot| 0 < rule_text::line_count(slot.right))
}

// The lowest rule that has no policy. A right line, as rule 0, comes before any rule.
#[tactic(auto, unfolding(crate::specs::Writing::without_policy))]
fn without_policy(list: &RuleList) -> Option<usize>
    ensures { result ≡ without_policy list.now }
{
    if has_right_line(&list.rights) {
        return Some(0);
    }
    lowest_without(list.used())
}

// The lowest rule of the slots that has no policy, if there is one; rules are numbered from 1.
fn lowest_without(slots: &[Slot]) -> Option<usize>
    ensures { result ≡ without_from 1 (map rule_of slots.now) }
{
    let passed = slots.iter().position(|slot| !has_policy(slot.rule));
    passed.map(|passed| passed + 1)
}

// Writes the policy of a rule at a place, and returns the place after it. A rule without one has no text.
fn put_policy(number: u64, rule: Rule, out: &mut [u8], at: usize) -> usize
    ensures { Wrote out.old at (policy_text number rule) result out.new }
{
    let line = lines::policy_of(number, rule);
    forms::write_line(&FORMS, &STARTS, line.form, &line.values, out, at)
}

// Writes the policies of a list from the first byte on, and returns where they end.
fn put_policies(list: &RuleList, out: &mut [u8]) -> usize
    ensures { Wrote out.old 0 (list_text policy_text 1 (rules_of list.now)) result out.new }
{
    let mut at = 0;
    for (i, slot) in list.used().iter().enumerate() {
        at = put_policy(i as u64 + 1, slot.rule, out, at);
    }
    at
}

// Writes a rule list as policies. Its length is measured in the empty part of the lent space, so that a refusal leaves every byte.
#[tactic(auto, unfolding(crate::specs::Writing::written_policies, crate::specs::Writing::lent_after_policies))]
pub fn write_policies(list: RuleList, out: &mut [u8]) -> Result<usize, WriteRefusal>
    ensures { (by_number result ≡ written_policies list out.old) × (out.new ≡ lent_after_policies list out.old) }
{
    if !list.is_accepted() {
        return Err(WriteRefusal::NotAccepted);
    }
    if let Some(rule) = without_policy(&list) {
        return Err(WriteRefusal::WithoutPolicy { rule });
    }
    let needed = put_policies(&list, &mut out[..0]);
    if out.len() < needed {
        return Err(WriteRefusal::NoRoom { bytes: needed });
    }
    Ok(put_policies(&list, out))
}
