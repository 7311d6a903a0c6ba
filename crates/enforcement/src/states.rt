// The state: who is assigned what, which role carries which permission, the loans, the sessions, and who did what on which object.
ghost use Rattle.std.specs.Prelude.{◌≡◌, true};
ghost use Rattle.rules.specs.Acceptance.{list_accepted};
ghost use Rattle.rules.specs.Families.{closed_session};
ghost use Rattle.enforcement.specs.States.{fresh, state_accepted};
ghost use Rattle.enforcement.specs.Narrow.{Narrow};
ghost use Rattle.enforcement.specs.Gate.{step_of};

use loans::Loans;
use places::Position;
use rules::{RuleList, Session};
use steps::{Answer, Refusal, Step};

#[derive(Clone, Copy)]
pub struct State {
    pub time: u64,
    // The roles of each user.
    pub assigned: [u32; 64],
    // The permissions of each role.
    pub granted: [u32; 32],
    pub loans: Loans,
    pub sessions: [Session; 32],
    // The active roles of each session.
    pub active: [u32; 32],
    // At object * 32 + permission the users who did it.
    pub history: [u64; 1024],
}

// The next state and the answer.
#[derive(Clone, Copy)]
pub struct Next {
    pub state: State,
    pub answer: Answer,
}

impl State {
    // Time 0, all else empty.
    #[tactic(auto, unfolding(crate::specs::States::fresh))]
    pub fn fresh() -> Self
        ensures { result ≡ fresh }
    {
        State {
            time: 0,
            assigned: [0; 64],
            granted: [0; 32],
            loans: Loans::none(),
            sessions: [closed_session(); 32],
            active: [0; 32],
            history: [0; 1024],
        }
    }

    // One step: 40 and 20 first, then its checks and rules. Where 40 refuses neither list nor state, it is what document 01 says with the
    // selected rules alone.
    pub fn step(mut self, list: RuleList, step: Step) -> Next
        ensures given { result ≡ step_of list self step }
        ensures narrow { list_accepted list ≡ true → state_accepted self ≡ true → Narrow list self step result }
    {
        if !self.is_accepted_under(&list) {
            return Next {
                state: self,
                answer: Answer::Refused {
                    number: Refusal::NotAccepted.number(),
                },
            };
        }
        let answer = self.decide(&list, step);
        Next {
            state: self,
            answer,
        }
    }
}

pub(crate) fn closed_session() -> Session
    ensures { result ≡ closed_session }
{
    Session {
        is_open: false,
        user: 0,
        position: Position::Unknown,
    }
}
