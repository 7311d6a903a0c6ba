// The full test of one rule: it stops at the first breach that it meets.
ghost use Rattle.std.specs.Prelude.{◌≡◌, ◌<◌};
ghost use Rattle.sets.specs.Sets.{set_of, union_of};
ghost use Rattle.rules.specs.Breach.{first_broken, over_limit};
ghost use Rattle.rules.specs.Facts.{view_of};
ghost use Rattle.rules.specs.Families.{has_role, word_at, prerequisite_at, max_users, max_roles_at, max_permissions, max_active_at, static_separation_at, is_active_for, inactive_at, permissions_of, dynamic_separation_at, dependency_at, time_context_at, placed_at, location_context_at, users_who, history_separation_at, binding_of_duty_at, tested};

use crate::facts::Facts;
use crate::families::Rule;
use crate::sessions::Session;
use calendar::Term;
use places::{Position, Side};
use sets::Set;

impl Rule {
    // The full test of the rule: the breach, if there is one, as the first user, session or object that breaks the rule, or as the count
    // above its limit.
    #[tactic(auto, unfolding(crate::specs::Families::tested))]
    pub fn test(self, facts: Facts) -> Option<usize>
        ensures { result ≡ tested self (view_of facts.entry) }
    {
        let Facts {
            assigned,
            held,
            granted,
            sessions,
            active,
            history,
            time,
        } = facts;
        match self {
            Rule::Prerequisite { role, required } => prerequisite(assigned, role, required),
            Rule::MaxUsers { role, limit } => max_users(held, role, limit),
            Rule::MaxRoles { limit } => max_roles(held, limit),
            Rule::MaxPermissions { role, limit } => max_permissions(granted, role, limit),
            Rule::MaxActive { limit } => max_active(active, limit),
            Rule::StaticSeparation { first, second } => static_separation(held, first, second),
            Rule::DynamicSeparation { first, second } => {
                dynamic_separation(sessions, active, first, second)
            }
            Rule::Dependency { role, needed } => dependency(active, role, needed),
            Rule::TimeContext { role, term } => time_context(active, role, term, time),
            Rule::LocationContext { role, side } => location_context(sessions, active, role, side),
            Rule::HistorySeparation { first, second } => history_separation(history, first, second),
            Rule::BindingOfDuty { first, second } => binding_of_duty(history, first, second),
        }
    }
}

// before r q: the first user assigned r and not q.
#[tactic(auto, using(crate::proofs::Breach::turns), unfolding(crate::specs::Families::prerequisite_at))]
fn prerequisite(assigned: &[u32; 64], role: u32, required: u32) -> Option<usize>
    ensures { result ≡ first_broken 64 (prerequisite_at assigned.now role required) }
{
    'users: {
        for (user, roles) in assigned.iter().enumerate() {
            if roles.contains(role as usize) && !roles.contains(required as usize) {
                break 'users Some(user);
            }
        }
        None
    }
}

// max-users r n: the number of users who hold r, where it is above n.
#[tactic(auto, using(crate::proofs::Steps::set_counted), unfolding(crate::specs::Families::max_users))]
fn max_users(held: &[u32; 64], role: u32, limit: u32) -> Option<usize>
    ensures { result ≡ max_users held.now role limit }
{
    within_limit(users_of(held, role).count(), limit)
}

// max-roles n: the first user who holds more than n roles.
#[tactic(auto, using(crate::proofs::Breach::turns), unfolding(crate::specs::Families::max_roles_at))]
fn max_roles(held: &[u32; 64], limit: u32) -> Option<usize>
    ensures { result ≡ first_broken 64 (max_roles_at held.now limit) }
{
    'users: {
        for (user, roles) in held.iter().enumerate() {
            if limit < roles.count() {
                break 'users Some(user);
            }
        }
        None
    }
}

// max-permissions r n: the number of permissions that r carries, where it is above n.
#[tactic(auto, unfolding(crate::specs::Families::max_permissions))]
fn max_permissions(granted: &[u32; 32], role: u32, limit: u32) -> Option<usize>
    ensures { result ≡ max_permissions granted.now role limit }
{
    within_limit(permissions_of(granted, role).count(), limit)
}

// max-active n: the first session with more than n active roles.
#[tactic(auto, using(crate::proofs::Breach::turns), unfolding(crate::specs::Families::max_active_at))]
fn max_active(active: &[u32; 32], limit: u32) -> Option<usize>
    ensures { result ≡ first_broken 32 (max_active_at active.now limit) }
{
    'sessions: {
        for (session, roles) in active.iter().enumerate() {
            if limit < roles.count() {
                break 'sessions Some(session);
            }
        }
        None
    }
}

// apart r q: the first user who holds both.
#[tactic(auto, using(crate::proofs::Breach::turns), unfolding(crate::specs::Families::static_separation_at))]
fn static_separation(held: &[u32; 64], first: u32, second: u32) -> Option<usize>
    ensures { result ≡ first_broken 64 (static_separation_at held.now first second) }
{
    'users: {
        for (user, roles) in held.iter().enumerate() {
            if roles.contains(first as usize) && roles.contains(second as usize) {
                break 'users Some(user);
            }
        }
        None
    }
}

// apart-active r q: the first user who has both active, over all his sessions.
#[tactic(auto, using(crate::proofs::Steps::active_turns), unfolding(crate::specs::Families::dynamic_separation_at))]
fn dynamic_separation(
    sessions: &[Session; 32],
    active: &[u32; 32],
    first: u32,
    second: u32,
) -> Option<usize>
    ensures { result ≡ first_broken 64 (dynamic_separation_at sessions.now active.now first second) }
{
    let with_first = users_active(sessions, active, first);
    let with_second = users_active(sessions, active, second);
    'users: {
        for user in 0..64 {
            if with_first.contains(user) && with_second.contains(user) {
                break 'users Some(user);
            }
        }
        None
    }
}

// needs r q: the first session with r active, where q is active in none.
#[tactic(auto, using(crate::proofs::Steps::while_active))]
fn dependency(active: &[u32; 32], role: u32, needed: u32) -> Option<usize>
    ensures { result ≡ first_broken 32 (dependency_at active.now role needed) }
{
    if active_somewhere(active).contains(needed as usize) {
        return None;
    }
    first_active(active, role)
}

// during r (term): the first session with r active, where the term does not hold.
#[tactic(auto, using(crate::proofs::Steps::while_active))]
fn time_context(active: &[u32; 32], role: u32, term: Term, time: u64) -> Option<usize>
    ensures { result ≡ first_broken 32 (time_context_at active.now role term time) }
{
    if term.holds(time) {
        return None;
    }
    first_active(active, role)
}

// at r (side): the first session with r active that is not positioned so.
#[tactic(auto, using(crate::proofs::Breach::turns), unfolding(crate::specs::Families::location_context_at))]
fn location_context(
    sessions: &[Session; 32],
    active: &[u32; 32],
    role: u32,
    side: Side,
) -> Option<usize>
    ensures { result ≡ first_broken 32 (location_context_at sessions.now active.now role side) }
{
    'sessions: {
        for (i, session) in sessions.iter().enumerate() {
            if !is_placed(active[i], role, side, session.position) {
                break 'sessions Some(i);
            }
        }
        None
    }
}

// two-hands p q: the first object on which a user did both.
#[tactic(auto, using(crate::proofs::Steps::object_turns))]
fn history_separation(history: &[u64; 1024], first: u32, second: u32) -> Option<usize>
    ensures { result ≡ first_broken 32 (history_separation_at history.now first second) }
{
    'objects: {
        for object in 0..32 {
            let did_first = users_who(history, object, first);
            let did_second = users_who(history, object, second);
            if !did_first.intersection(did_second).is_empty() {
                break 'objects Some(object);
            }
        }
        None
    }
}

// same-hand p q: the first object on which more than one user did p or q.
#[tactic(auto, using(crate::proofs::Steps::object_turns))]
fn binding_of_duty(history: &[u64; 1024], first: u32, second: u32) -> Option<usize>
    ensures { result ≡ first_broken 32 (binding_of_duty_at history.now first second) }
{
    'objects: {
        for object in 0..32 {
            let by_first = users_who(history, object, first);
            let by_second = users_who(history, object, second);
            if 1 < by_first.union(by_second).count() {
                break 'objects Some(object);
            }
        }
        None
    }
}

// A count equal to the limit keeps it.
fn within_limit(count: u32, limit: u32) -> Option<usize>
    ensures { result ≡ over_limit count limit }
{
    (limit < count).then_some(count as usize)
}

// The users who hold a role.
#[tactic(auto, using(crate::proofs::Steps::set_turns))]
fn users_of(held: &[u32; 64], role: u32) -> u64
    ensures { result ≡ set_of 64 (λ u. has_role held.now u role) }
{
    let mut users: u64 = 0;
    for (user, roles) in held.iter().enumerate() {
        if roles.contains(role as usize) {
            users = users.with(user);
        }
    }
    users
}

// The users who have a role active in some session.
#[tactic(auto, using(crate::proofs::Steps::user_turns), unfolding(crate::specs::Families::is_active_for))]
fn users_active(sessions: &[Session; 32], active: &[u32; 32], role: u32) -> u64
    ensures { result ≡ set_of 64 (λ u. is_active_for sessions.now active.now u role) }
{
    let mut users: u64 = 0;
    for (session, roles) in sessions.iter().zip(active) {
        if roles.contains(role as usize) {
            users = users.with(session.user as usize);
        }
    }
    users
}

// The roles that are active in some session.
#[tactic(auto, using(crate::proofs::Steps::union_turns))]
pub fn active_somewhere(active: &[u32; 32]) -> u32
    ensures { result ≡ union_of 32 (word_at active.now) }
{
    let mut somewhere: u32 = 0;
    for roles in active {
        somewhere = somewhere.union(*roles);
    }
    somewhere
}

// The first session with the role active.
#[tactic(auto, using(crate::proofs::Breach::turns), unfolding(crate::specs::Families::inactive_at))]
fn first_active(active: &[u32; 32], role: u32) -> Option<usize>
    ensures { result ≡ first_broken 32 (inactive_at active.now role) }
{
    'sessions: {
        for (session, roles) in active.iter().enumerate() {
            if roles.contains(role as usize) {
                break 'sessions Some(session);
            }
        }
        None
    }
}

// A session with these active roles is positioned as the rule wants, or does not have the role active.
#[tactic(auto, unfolding(crate::specs::Families::placed_at))]
fn is_placed(roles: u32, role: u32, side: Side, position: Position) -> bool
    ensures { result ≡ placed_at roles role side position }
{
    !roles.contains(role as usize) || side.holds(position)
}

// The permissions that a role carries; none for a role past the last.
#[tactic(auto, unfolding(crate::specs::Families::permissions_of))]
fn permissions_of(granted: &[u32; 32], role: u32) -> u32
    ensures { result ≡ permissions_of granted.now role }
{
    granted.get(role as usize).copied().unwrap_or(0)
}

// The users who did a permission on an object; none for a permission past the last.
#[tactic(auto, unfolding(crate::specs::Families::users_who))]
fn users_who(history: &[u64; 1024], object: usize, permission: u32) -> u64
    requires { object < 32 }
    ensures { result ≡ users_who history.now object permission }
{
    if Rule::PERMISSIONS <= permission {
        return 0;
    }
    history[object * 32 + permission as usize]
}
