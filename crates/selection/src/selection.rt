// The table's last column: which rules a step selects.
ghost use Rattle.std.specs.Prelude.{◌≡◌};
ghost use Rattle.rules.specs.declared.families.Rule.{Rule};
ghost use Rattle.selection.specs.Selection.{family, first, second, selects};
ghost use Rattle.selection.specs.Choices.{chosen, choice_of};

use rules::Rule;
use sets::Set;
use steps::Action;

// Sets of one family each. A family is a number, not an enum, since it is a member of such sets.
const PREREQUISITE: u32 = 1 << 1;

const MAX_USERS: u32 = 1 << 2;

const MAX_ROLES: u32 = 1 << 3;

const MAX_PERMISSIONS: u32 = 1 << 4;

const MAX_ACTIVE: u32 = 1 << 5;

const STATIC_SEPARATION: u32 = 1 << 6;

const DYNAMIC_SEPARATION: u32 = 1 << 7;

const DEPENDENCY: u32 = 1 << 8;

const TIME_CONTEXT: u32 = 1 << 9;

const LOCATION_CONTEXT: u32 = 1 << 10;

const HISTORY_SEPARATION: u32 = 1 << 11;

const BINDING_OF_DUTY: u32 = 1 << 12;

// The rules that a step selects, by sets of families. It is made once a step, so that a rule of another family costs one test.
#[derive(Clone, Copy)]
pub struct Choice {
    // All families of which some rule may be selected.
    pub families: u32,
    // Those of which every rule is.
    pub whole: u32,
    // Those of which the rules are that name the number first, and second.
    pub by_first: u32,
    pub by_second: u32,
    pub named: usize,
}

// The step selects the rule.
pub fn selects(action: Action, rule: Rule) -> bool
    ensures { result ≡ selects action rule }
{
    is_chosen(choice_of(action), rule)
}

pub fn choice_of(action: Action) -> Choice
    ensures { (rule : Rule) → chosen result rule ≡ selects action rule }
{
    match action {
        Action::Malformed | Action::Take { .. } | Action::Open { .. } | Action::Finish { .. } =>
            by_families(0, 0, 0, 0),
        Action::Assign { role, .. } => by_families(
            MAX_ROLES,
            PREREQUISITE | MAX_USERS | STATIC_SEPARATION,
            STATIC_SEPARATION,
            role,
        ),
        Action::Withdraw { role, .. } => by_families(0, 0, PREREQUISITE, role),
        Action::Grant { role, .. } => by_families(0, MAX_PERMISSIONS, 0, role),
        Action::Activate { role, .. } => by_families(
            MAX_ACTIVE,
            DYNAMIC_SEPARATION | DEPENDENCY | TIME_CONTEXT | LOCATION_CONTEXT,
            DYNAMIC_SEPARATION,
            role,
        ),
        Action::Deactivate { role, .. } => by_families(0, 0, DEPENDENCY, role),
        Action::Access { permission, .. } => by_families(
            0,
            HISTORY_SEPARATION | BINDING_OF_DUTY,
            HISTORY_SEPARATION | BINDING_OF_DUTY,
            permission,
        ),
        Action::Close { .. } | Action::Recall { .. } => by_families(DEPENDENCY, 0, 0, 0),
        Action::Move { .. } | Action::Lost { .. } => {
            by_families(LOCATION_CONTEXT | DEPENDENCY, 0, 0, 0)
        }
        Action::Clock { .. } => by_families(TIME_CONTEXT | DEPENDENCY, 0, 0, 0),
        Action::Lend { role, .. } => by_families(
            MAX_ROLES,
            MAX_USERS | STATIC_SEPARATION,
            STATIC_SEPARATION,
            role,
        ),
    }
}

fn by_families(whole: u32, by_first: u32, by_second: u32, named: usize) -> Choice
    ensures { result ≡ choice_of whole by_first by_second named }
{
    Choice {
        families: whole.union(by_first).union(by_second),
        whole,
        by_first,
        by_second,
        named,
    }
}

#[tactic(auto, unfolding(crate::specs::Choices::chosen))]
pub fn is_chosen(choice: Choice, rule: Rule) -> bool
    ensures { result ≡ chosen choice rule }
{
    let family = family_of(rule);
    if !choice.families.contains(family) {
        return false;
    }
    choice.whole.contains(family)
        || choice.by_first.contains(family) && first_of(rule) == choice.named
        || choice.by_second.contains(family) && second_of(rule) == choice.named
}

// A rule's family, 1 to 12.
fn family_of(rule: Rule) -> usize
    ensures { result ≡ family rule }
{
    match rule {
        Rule::Prerequisite { .. } => 1,
        Rule::MaxUsers { .. } => 2,
        Rule::MaxRoles { .. } => 3,
        Rule::MaxPermissions { .. } => 4,
        Rule::MaxActive { .. } => 5,
        Rule::StaticSeparation { .. } => 6,
        Rule::DynamicSeparation { .. } => 7,
        Rule::Dependency { .. } => 8,
        Rule::TimeContext { .. } => 9,
        Rule::LocationContext { .. } => 10,
        Rule::HistorySeparation { .. } => 11,
        Rule::BindingOfDuty { .. } => 12,
    }
}

// The first role or permission that a rule names; 0 where it names none.
pub fn first_of(rule: Rule) -> usize
    ensures { result ≡ first rule }
{
    let first = match rule {
        Rule::Prerequisite { role, .. }
        | Rule::MaxUsers { role, .. }
        | Rule::MaxPermissions { role, .. }
        | Rule::Dependency { role, .. }
        | Rule::TimeContext { role, .. }
        | Rule::LocationContext { role, .. } => role,
        Rule::StaticSeparation { first, .. }
        | Rule::DynamicSeparation { first, .. }
        | Rule::HistorySeparation { first, .. }
        | Rule::BindingOfDuty { first, .. } => first,
        Rule::MaxRoles { .. } | Rule::MaxActive { .. } => 0,
    };
    first as usize
}

// The second one; 0 where it names none.
fn second_of(rule: Rule) -> usize
    ensures { result ≡ second rule }
{
    let second = match rule {
        Rule::Prerequisite { required, .. } => required,
        Rule::Dependency { needed, .. } => needed,
        Rule::StaticSeparation { second, .. }
        | Rule::DynamicSeparation { second, .. }
        | Rule::HistorySeparation { second, .. }
        | Rule::BindingOfDuty { second, .. } => second,
        _ => 0,
    };
    second as usize
}
