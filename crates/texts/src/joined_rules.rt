// Two rule lists joined: both texts in, the text of the joined list out.
ghost use Rattle.std.specs.Prelude.{◌≡◌, ◌≤◌, ◌<◌, length};
ghost use Rattle.rule_text.specs.Reading.{read_lines, loaded_of};
ghost use Rattle.rule_text.specs.Writing.{text_of};
ghost use Rattle.texts.specs.SavedRuns.{rules_in, report_of, ErrIsRefusal, lent_to, list_report};
ghost use Rattle.texts.specs.declared.saved_runs.Text.TheVariants as Text;
ghost use Rattle.texts.specs.JoinedTexts.{lines_before, line_in, joined_with, join_report};

use crate::saved_runs::{Refused, Text, Written, write_list};
use rules::{RightSlot, RuleList};

// Refused are the first text and then the second by their first bad line, then right lines that differ (58) and more than 128 rules (57), with
// the line of the second text, then a space that is too short (18).
pub fn join_rules(first: &[u8], second: &[u8], joined: &mut [u8]) -> Result<Written, Refused>
    ensures given { (report_of result ≡ join_report (loaded_of (read_lines first.now)) (loaded_of (read_lines second.now)) (length joined.old)) × (joined.new ≡ lent_to (report_of result) (text_of (joined_with (rules_in first.now) (loaded_of (read_lines second.now))).list) joined.old) }
    ensures refused { ErrIsRefusal result }
{
    match rule_text::read_rules(first) {
        Ok(list) => join_text(list, second, joined),
        Err(bad) => Err(Refused::of_line(Text::Rules, bad)),
    }
}

// The text of the list joined with another text's, or what is refused of that text, with its line.
fn join_text(first: RuleList, second: &[u8], out: &mut [u8]) -> Result<Written, Refused>
    requires { length first.rights ≡ 6 }
    ensures given { (report_of result ≡ list_report Text.SecondRules (joined_with first (loaded_of (read_lines second.now))) (length out.old)) × (out.new ≡ lent_to (report_of result) (text_of (joined_with first (loaded_of (read_lines second.now))).list) out.old) }
    ensures refused { ErrIsRefusal result }
{
    let list = match rule_text::read_rules(second) {
        Ok(list) => list,
        Err(bad) => return Err(Refused::of_line(Text::SecondRules, bad)),
    };
    let joined = match joining::join(first, list) {
        Ok(joined) => joined,
        Err(refusal) => {
            let line = line_in(list.rights, refusal.number(), refusal.place());
            return Err(Refused {
                text: Text::SecondRules,
                number: refusal.number(),
                place: line,
            });
        }
    };
    write_list(Text::SecondRules, Ok(joined), out)
}

// The line of the second text: for 58 that of a kind's right, for 57 that of a rule.
fn line_in(rights: [RightSlot; 6], number: u64, place: usize) -> usize
    requires { (place ≤ 128) × (number ≡ 58 → place < 6) }
    ensures { result ≡ line_in rights number place }
{
    if number == 58 {
        return lines_before(rights, place) + 1;
    }
    if number == 57 {
        return lines_before(rights, RuleList::RIGHTS) + place;
    }
    0
}

// How many lines the rights of the kinds below one have.
fn lines_before(rights: [RightSlot; 6], kind: usize) -> usize
    requires { kind ≤ 6 }
    ensures { (result ≡ lines_before rights kind) × (result ≤ 6) }
{
    let mut lines: usize = 0;
    for slot in &rights[..kind] {
        lines += rule_text::line_count(slot.right);
    }
    lines
}
