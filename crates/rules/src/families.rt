// The twelve rule families, and what 11, 13 and 14 look for in one rule. Roles are 0 to 31, and so are permissions.
ghost use Rattle.std.specs.Prelude.{◌≡◌};
ghost use Rattle.rules.specs.Acceptance.{rule_in_range, rule_distinct, rule_sound, rule_accepted};

use calendar::Term;
use places::Side;

#[derive(Clone, Copy)]
pub enum Rule {
    // before r q
    Prerequisite { role: u32, required: u32 },
    // max-users r n
    MaxUsers { role: u32, limit: u32 },
    // max-roles n
    MaxRoles { limit: u32 },
    // max-permissions r n
    MaxPermissions { role: u32, limit: u32 },
    // max-active n
    MaxActive { limit: u32 },
    // apart r q
    StaticSeparation { first: u32, second: u32 },
    // apart-active r q
    DynamicSeparation { first: u32, second: u32 },
    // needs r q
    Dependency { role: u32, needed: u32 },
    // during r (term)
    TimeContext { role: u32, term: Term },
    // at r (side)
    LocationContext { role: u32, side: Side },
    // two-hands p q
    HistorySeparation { first: u32, second: u32 },
    // same-hand p q
    BindingOfDuty { first: u32, second: u32 },
}

impl Rule {
    pub const ROLES: u32 = 32;

    pub const PERMISSIONS: u32 = 32;

    // The largest limit of max-users.
    pub const MOST_USERS: u32 = 64;

    // The largest limit of max-roles and max-active.
    pub const MOST_ROLES: u32 = 32;

    // The largest limit of max-permissions.
    pub const MOST_PERMISSIONS: u32 = 32;

    // Each number of the rule is in its range (else 11).
    #[tactic(auto, unfolding(crate::specs::Acceptance::rule_in_range))]
    pub fn in_range(self) -> bool
        ensures { result ≡ rule_in_range self }
    {
        match self {
            Rule::Prerequisite {
                role: first,
                required: second,
            }
            | Rule::StaticSeparation { first, second }
            | Rule::DynamicSeparation { first, second }
            | Rule::Dependency {
                role: first,
                needed: second,
            } => first < Rule::ROLES && second < Rule::ROLES,
            Rule::MaxUsers { role, limit } => role < Rule::ROLES && limit <= Rule::MOST_USERS,
            Rule::MaxRoles { limit } | Rule::MaxActive { limit } => limit <= Rule::MOST_ROLES,
            Rule::MaxPermissions { role, limit } => {
                role < Rule::ROLES && limit <= Rule::MOST_PERMISSIONS
            }
            Rule::TimeContext { role, term } => role < Rule::ROLES && term.in_range(),
            Rule::LocationContext { role, side } => role < Rule::ROLES && side.shape().in_range(),
            Rule::HistorySeparation { first, second } | Rule::BindingOfDuty { first, second } => {
                first < Rule::PERMISSIONS && second < Rule::PERMISSIONS
            }
        }
    }

    // It does not name the same role or permission twice (else 13).
    #[tactic(auto, unfolding(crate::specs::Acceptance::rule_distinct))]
    pub fn is_distinct(self) -> bool
        ensures { result ≡ rule_distinct self }
    {
        match self {
            Rule::Prerequisite {
                role: first,
                required: second,
            }
            | Rule::StaticSeparation { first, second }
            | Rule::DynamicSeparation { first, second }
            | Rule::Dependency {
                role: first,
                needed: second,
            }
            | Rule::HistorySeparation { first, second }
            | Rule::BindingOfDuty { first, second } => first != second,
            _ => true,
        }
    }

    // Its term or shape is sound (else 14).
    #[tactic(auto, unfolding(crate::specs::Acceptance::rule_sound))]
    pub fn is_sound(self) -> bool
        ensures { result ≡ rule_sound self }
    {
        match self {
            Rule::TimeContext { term, .. } => term.is_sound(),
            Rule::LocationContext { side, .. } => side.shape().is_sound(),
            _ => true,
        }
    }

    // None of 11, 13 and 14 refuses it.
    pub fn is_accepted(self) -> bool
        ensures { result ≡ rule_accepted self }
    {
        self.in_range() && self.is_distinct() && self.is_sound()
    }
}
