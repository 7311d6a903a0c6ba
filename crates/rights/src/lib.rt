// Request 2026-05: who may take the steps that change what is assigned, carried or lent.
#![tactic(auto)]

ghost use Rattle.std.specs.Prelude.{◌≡◌};
ghost use Rattle.rules.specs.Families.{word_at};
ghost use Rattle.rights.specs.Rights.{is_carried, right_for, is_stated, acts, is_closed, acts_closed, lacks_right, is_bound, refusal_by};

use rules::{Right, RightSlot, Session};
use sets::Set;
use steps::acting::{is_administrative, right_kind};
use steps::{Acting, Action, Refusal, Step};

// 53 or 54 may refuse the step: it is one of the six kinds, and its kind has a right or a session acts.
pub fn is_bound(rights: &[RightSlot; 6], by: Acting, action: Action) -> bool
    ensures { result ≡ is_bound rights.now by action }
{
    is_administrative(action) && (acts(by) || is_stated(right_for(rights, action)))
}

// 53 where the acting session is not open, else 54 where the right is lacking.
pub fn refusal(
    rights: &[RightSlot; 6],
    by: Acting,
    action: Action,
    sessions: &[Session; 32],
    active: &[u32; 32],
    granted: &[u32; 32],
) -> Result<(), Refusal>
    ensures { result ≡ refusal_by (right_for rights.now action) by sessions.now active.now granted.now }
{
    if acts_closed(sessions, by) {
        return Err(Refusal::ActorNotOpen);
    }
    if lacks_right(right_for(rights, action), by, active, granted) {
        return Err(Refusal::RightLacking);
    }
    Ok(())
}

// One of the roles carries the permission.
#[tactic(auto, using(crate::proofs::Carrying::carried_turns))]
pub fn is_carried(granted: &[u32; 32], roles: u32, permission: usize) -> bool
    ensures { result ≡ is_carried granted.now roles permission }
{
    for (role, permissions) in granted.iter().enumerate() {
        if roles.contains(role) && permissions.contains(permission) {
            return true;
        }
    }
    false
}

// The acting session is not open.
fn acts_closed(sessions: &[Session; 32], by: Acting) -> bool
    ensures { result ≡ acts_closed sessions.now by }
{
    match by {
        Acting::Nobody => false,
        Acting::InSession(session) => is_closed(sessions, session as usize),
    }
}

// A session past the last is not open.
fn is_closed(sessions: &[Session; 32], session: usize) -> bool
    ensures { result ≡ is_closed sessions.now session }
{
    Step::SESSIONS <= session || !sessions[session].is_open
}

// The kind has a right, and nobody acts or no role active in the acting session carries its permission.
fn lacks_right(right: Right, by: Acting, active: &[u32; 32], granted: &[u32; 32]) -> bool
    ensures { result ≡ lacks_right right by active.now granted.now }
{
    let Right::Permission(permission) = right else {
        return false;
    };
    match by {
        Acting::Nobody => true,
        Acting::InSession(session) => !is_carried(
            granted,
            roles_in(active, session as usize),
            permission as usize,
        ),
    }
}

// The roles active in a session; none in one past the last.
fn roles_in(active: &[u32; 32], session: usize) -> u32
    ensures { result ≡ word_at active.now session }
{
    active.get(session).copied().unwrap_or(0)
}

fn acts(by: Acting) -> bool
    ensures { result ≡ acts by }
{
    matches!(by, Acting::InSession(_))
}

fn is_stated(right: Right) -> bool
    ensures { result ≡ is_stated right }
{
    matches!(right, Right::Permission(_))
}

// The right of a step's kind; none where no such kind can have one.
fn right_for(rights: &[RightSlot; 6], action: Action) -> Right
    ensures { result ≡ right_for rights.now action }
{
    rights
        .get(right_kind(action))
        .map_or(Right::Unstated, |slot| slot.right)
}
