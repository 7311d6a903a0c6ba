// What is left of the active pairs, on sets of roles: those whose role the session's user holds, and what a plan leaves in rounds. A plan
// has the roles that are dead, of each session those that are out, and of each role those that it needs. A new array is filled by index: a
// proof follows no element through `iter_mut`.
ghost use Rattle.std.specs.Prelude.{◌≡◌};
ghost use Rattle.rules.specs.Families.{word_at, has_role, session_at};
ghost use Rattle.steps.specs.Pairs.{sifted};
ghost use Rattle.selection.specs.Ending.{staying_roles, plan_round, plan_settled};

use rules::Session;
use rules::tests::active_somewhere;
use sets::Set;

// Of each session the active roles that its user holds.
pub fn held_active(held: &[u32; 64], sessions: &[Session; 32], active: &[u32; 32]) -> [u32; 32]
    ensures { result ≡ sifted 0 (λ i r. has_role held.now (session_at sessions.now i).user r) active.now }
{
    let mut kept = [0u32; 32];
    for (i, session) in sessions.iter().enumerate() {
        kept[i] = active[i].intersection(roles_of(held, session.user));
    }
    kept
}

// The roles that a user holds; none for a user past the last.
fn roles_of(held: &[u32; 64], user: u32) -> u32
    ensures { result ≡ word_at held.now user }
{
    held.get(user as usize).copied().unwrap_or(0)
}

// Rounds until nothing changes.
pub fn plan_settled(active: [u32; 32], out: &[u32; 32], needs: &[u32; 32], dead: u32) -> [u32; 32]
    ensures { result ≡ plan_settled dead out.now needs.now active }
{
    let mut kept = active;
    loop {
        let less = plan_round(&kept, out, needs, dead);
        if kept == less {
            return kept;
        }
        kept = less;
    }
}

// One round: each pair stays that the plan lets stay where these pairs are active.
fn plan_round(active: &[u32; 32], out: &[u32; 32], needs: &[u32; 32], dead: u32) -> [u32; 32]
    ensures { result ≡ plan_round dead out.now needs.now active.now }
{
    let staying = staying_roles(needs, dead, active_somewhere(active));
    let mut less = [0u32; 32];
    for (i, roles) in active.iter().enumerate() {
        less[i] = roles.intersection(staying).difference(out[i]);
    }
    less
}

// The roles that are not dead and have all active that they need.
#[tactic(auto, using(rules::proofs::Steps::set_turns), unfolding(crate::specs::Ending::staying_roles))]
fn staying_roles(needs: &[u32; 32], dead: u32, live: u32) -> u32
    ensures { result ≡ staying_roles dead needs.now live }
{
    let mut staying: u32 = 0;
    for (role, needed) in needs.iter().enumerate() {
        if !dead.contains(role) && needed.is_subset(live) {
            staying = staying.with(role);
        }
    }
    staying
}
