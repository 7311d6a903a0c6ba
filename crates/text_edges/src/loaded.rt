// What the cases load: rule lists in either language, also joined, and saved states.
use crate::cases::Kind;
use crate::writing::{self, Refused};
use enforcement::State;
use rule_text::BadLine;
use rules::RuleList;
use state_text::Refusal;
use std::io;

// The rules that were read last, and the state.
#[derive(Clone, Copy)]
pub(crate) struct Loaded {
    list: RuleList,
    state: State,
}

impl Loaded {
    // No rules, and a fresh state.
    pub(crate) fn nothing() -> Loaded {
        Loaded {
            list: rule_text::no_rules(),
            state: State::fresh(),
        }
    }

    // A case with its text and its number.
    pub(crate) fn take(
        &mut self,
        rt: &impl Print,
        kind: Kind,
        text: &[u8],
        number: u64,
    ) -> io::Result<()> {
        let room = number as usize;
        match kind {
            Kind::Rules => self.take_rules(rt, rule_text::read_rules(text)),
            Kind::Policies => self.take_rules(rt, policy_text::read_policies(text)),
            Kind::Saved => self.read_saved(rt, text),
            Kind::Join => self.join(rt, text),
            // The list with another length, as no text can hold it.
            Kind::Length => {
                self.list.length = number as usize;
                print!(rt; "{number}")
            }
            // The state with another time, as no text can hold it.
            Kind::Time => {
                self.state.time = number;
                print!(rt; "{number}")
            }
            Kind::Input => writing::show_response(rt, text),
            Kind::LongInput => writing::show_response_length(rt, text),
            Kind::WriteRules => writing::lend(rt, room, |out| {
                rule_text::write_rules(self.list, out).map_err(Refused::from)
            }),
            Kind::WriteSaved => writing::lend(rt, room, |out| {
                state_text::write_state(self.state, out).map_err(Refused::from)
            }),
            Kind::WriteResponse => writing::lend(rt, room, |out| {
                texts::respond(text, out).map_err(Refused::from)
            }),
            Kind::WritePolicies => writing::lend(rt, room, |out| {
                policy_text::write_policies(self.list, out).map_err(Refused::from)
            }),
        }
    }

    // Where the text is refused there are no rules.
    fn take_rules(&mut self, rt: &impl Print, read: Result<RuleList, BadLine>) -> io::Result<()> {
        match read {
            Ok(list) => {
                self.list = list;
                print!(rt; "accepted")
            }
            Err(bad) => {
                self.list = rule_text::no_rules();
                show_line(rt, bad)
            }
        }
    }

    // The rules that were read last joined with those of a text; on a refusal they stay.
    fn join(&mut self, rt: &impl Print, text: &[u8]) -> io::Result<()> {
        let second = match rule_text::read_rules(text) {
            Ok(list) => list,
            Err(bad) => return show_line(rt, bad),
        };
        match joining::join(self.list, second) {
            Ok(list) => {
                self.list = list;
                print!(rt; "{} rules", list.length)
            }
            Err(refusal) => print!(rt; "{} place {}", refusal.number(), refusal.place()),
        }
    }

    // A saved text under the rules that were read last.
    fn read_saved(&mut self, rt: &impl Print, text: &[u8]) -> io::Result<()> {
        match state_text::read_state(self.list, text) {
            Ok(state) => {
                self.state = state;
                print!(rt; "accepted")
            }
            Err(refusal) => {
                self.state = State::fresh();
                show_refusal(rt, refusal)
            }
        }
    }
}

fn show_line(rt: &impl Print, bad: BadLine) -> io::Result<()> {
    print!(rt; "{} at line {}", bad.refusal.number(), bad.line)
}

// The number of a refusal and its line or rule.
fn show_refusal(rt: &impl Print, refusal: Refusal) -> io::Result<()> {
    match refusal {
        Refusal::RulesNotAccepted => print!(rt; "40"),
        Refusal::Line { refusal, line } => print!(rt; "{} at line {line}", refusal.number()),
        Refusal::RuleBroken { rule } => print!(rt; "17 rule {rule}"),
    }
}
