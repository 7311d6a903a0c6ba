// What 40 looks for in a state: a field outside its range, a closed session that keeps anything, or loans that are not in order.
ghost use Rattle.std.specs.Prelude.{◌≡◌, ◌&&◌};
ghost use Rattle.rules.specs.Acceptance.{list_accepted};
ghost use Rattle.enforcement.specs.States.{session_accepted, state_accepted};
ghost use Rattle.sets.specs.Sets.{all};
ghost use Rattle.rules.specs.Families.{word_at, session_at};

use crate::states::State;
use calendar::Term;
use places::Position;
use rules::{RuleList, Session};
use sets::Set;
use steps::Step;

impl State {
    // 40 refuses neither the list nor the state.
    pub(crate) fn is_accepted_under(&self, list: &RuleList) -> bool
        ensures { result ≡ (list_accepted list.now && state_accepted self.now) }
    {
        list.is_accepted() && self.is_accepted()
    }

    // 40 does not refuse the state.
    #[tactic(auto, unfolding(crate::specs::States::state_accepted))]
    pub fn is_accepted(&self) -> bool
        ensures { result ≡ state_accepted self.now }
    {
        self.time <= Term::LAST_TIME && self.loans.is_accepted() && self.sessions_accepted()
    }

    #[tactic(auto, using(rules::proofs::Every::all_turns))]
    fn sessions_accepted(&self) -> bool
        ensures { result ≡ all 32 (λ i. session_accepted (session_at self.now.sessions i) (word_at self.now.active i)) }
    {
        for (i, session) in self.sessions.iter().enumerate() {
            if !session_accepted(*session, self.active[i]) {
                return false;
            }
        }
        true
    }
}

#[tactic(auto, unfolding(crate::specs::States::session_accepted))]
fn session_accepted(session: Session, roles: u32) -> bool
    ensures { result ≡ session_accepted session roles }
{
    if session.is_open {
        return (session.user as usize) < Step::USERS && session.position.in_range();
    }
    session.user == 0 && matches!(session.position, Position::Unknown) && roles.is_empty()
}
