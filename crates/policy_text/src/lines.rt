// A rule as a policy: its form and the values that stand in it; and the rule of such a line.
ghost use Rattle.std.specs.Prelude.{◌≡◌};
ghost use Rattle.policy_text.specs.Lines.{policy_of, rule_of_policy, no_policy};

use rule_text::Line;
use rules::Rule;

// The forms of policies, one a line; each mark stands for a number of its kind.
pub const FORMS: [u8; 175] = *b"\
PL#: assign-role r$ prerequisite r$;\n\
PL#: maxUsers = > only-for-role r$;\n\
PL#: maxRoles-User = <;\n\
PL#: maxActiveRoles = <;\n\
PL#: enable r$ if active r$ deactivation-dependency;\n";

pub const FORM_COUNT: usize = 5;

// Where each form starts, and where the last one ends.
pub const STARTS: [usize; 6] = [0, 37, 73, 97, 122, 175];

// The policy of a rule under its number; past the last form where the rule has none.
#[tactic(auto, unfolding(crate::specs::Lines::policy_of))]
pub fn policy_of(number: u64, rule: Rule) -> Line
    ensures { result ≡ policy_of number rule }
{
    match rule {
        Rule::Prerequisite { role, required } => rule_text::short_line(0, number, role, required),
        Rule::MaxUsers { role, limit } => rule_text::short_line(1, number, limit, role),
        Rule::MaxRoles { limit } => rule_text::short_line(2, number, limit, 0),
        Rule::MaxActive { limit } => rule_text::short_line(3, number, limit, 0),
        Rule::Dependency { role, needed } => rule_text::short_line(4, number, role, needed),
        _ => no_policy(),
    }
}

fn no_policy() -> Line
    ensures { result ≡ no_policy }
{
    Line {
        form: FORM_COUNT,
        values: [0; 6],
    }
}

// The rule with that form, which is its place in the table, and those values.
#[tactic(auto, unfolding(crate::specs::Lines::rule_of_policy))]
pub fn rule_of(form: usize, values: &[u64; 6]) -> Rule
    ensures { result ≡ rule_of_policy form values.now }
{
    let first = rule_text::narrow(values[1]);
    let second = rule_text::narrow(values[2]);
    match form {
        0 => Rule::Prerequisite {
            role: first,
            required: second,
        },
        1 => Rule::MaxUsers {
            role: second,
            limit: first,
        },
        2 => Rule::MaxRoles { limit: first },
        3 => Rule::MaxActive { limit: first },
        4 => Rule::Dependency {
            role: first,
            needed: second,
        },
        _ => rule_text::filler(),
    }
}
