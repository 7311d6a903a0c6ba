// Rule lists from one language to the other: our text from policies of GEMRBAC-DSL, and back.
ghost use Rattle.std.specs.Prelude.{◌≡◌, length};
ghost use Rattle.rule_text.specs.Reading.{read_lines, loaded_of};
ghost use Rattle.rule_text.specs.Writing.{text_of};
ghost use Rattle.policy_text.specs.Reading.{policies_read};
ghost use Rattle.policy_text.specs.Writing.{policies_text};
ghost use Rattle.texts.specs.SavedRuns.{rules_in, report_of, ErrIsRefusal, lent_to};
ghost use Rattle.texts.specs.Policies.{rules_from_report, policies_from_report, refused_text};

use crate::saved_runs::{Refused, Text, Written, write_list};

// Policies, read and written as our rule list. Refused are the policies by their first bad line, then a space that is too short (18).
pub fn rules_from_policies(policies: &[u8], rules: &mut [u8]) -> Result<Written, Refused>
    ensures given { (report_of result ≡ rules_from_report (loaded_of (policies_read policies.now)) (length rules.old)) × (rules.new ≡ lent_to (report_of result) (text_of (loaded_of (policies_read policies.now)).list) rules.old) }
    ensures refused { ErrIsRefusal result }
{
    write_list(Text::Policies, policy_text::read_policies(policies), rules)
}

// Our rule list, read and written as policies. Refused are the rules by their first bad line, then what has no policy (56), then a space
// that is too short (18).
pub fn policies_from_rules(rules: &[u8], policies: &mut [u8]) -> Result<Written, Refused>
    ensures given { (report_of result ≡ policies_from_report (loaded_of (read_lines rules.now)) (length policies.old)) × (policies.new ≡ lent_to (report_of result) (policies_text (rules_in rules.now)) policies.old) }
    ensures refused { ErrIsRefusal result }
{
    let list = match rule_text::read_rules(rules) {
        Ok(list) => list,
        Err(bad) => return Err(Refused::of_line(Text::Rules, bad)),
    };
    match policy_text::write_policies(list, policies) {
        Ok(output) => Ok(Written { output, state: 0 }),
        Err(refusal) => Err(Refused {
            text: refused_text(refusal.number()),
            number: refusal.number(),
            place: refusal.place(),
        }),
    }
}

// 18 is about the space, any other refusal of the writer about the rules.
fn refused_text(number: u64) -> Text
    ensures { result ≡ refused_text number }
{
    if number == 18 {
        return Text::OutputSpace;
    }
    Text::Rules
}
