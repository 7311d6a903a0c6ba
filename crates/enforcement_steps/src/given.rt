// The rules and the state that the next step is given, line by line.
use crate::lines::{self, Line};
use crate::numbers;
use enforcement::{Session, State};
use places::Position;
use rules::{Right, RightSlot, Rule, RuleList, Slot};
use sets::Set;
use std::io;
use steps::{Answer, Step};

#[derive(Clone, Copy)]
pub(crate) struct Given {
    list: RuleList,
    state: State,
}

impl Given {
    // No rules, and the fresh state.
    pub(crate) fn fresh() -> Given {
        Given {
            list: no_rules(),
            state: State::fresh(),
        }
    }

    // The line at the front of a text: a step, a line of the table, or another, by its first byte. Nothing comes of a comment or an empty
    // line.
    pub(crate) fn take(&mut self, rt: &impl Print, text: &[u8], line: &[u8]) -> io::Result<()> {
        if let Some(good) = step_text::read_step(text) {
            return self.decide(rt, good.step);
        }
        if let Some(line) = lines::read(text) {
            return self.set(rt, line);
        }
        match line.first().copied() {
            None | Some(b'#') => Ok(()),
            Some(b'(') => self.take_rules(rt, text),
            Some(b'k') => self.decide(rt, numbers::step_of(line)),
            Some(b'b') => self.decide(rt, numbers::step_by(line)),
            Some(b'l') => {
                self.list.length = numbers::number_after(1, line) as usize;
                Ok(())
            }
            Some(_) => misplaced(rt),
        }
    }

    fn decide(&mut self, rt: &impl Print, step: Step) -> io::Result<()> {
        let next = self.state.step(self.list, step);
        self.state = next.state;
        match next.answer {
            Answer::Granted { selected, ended } => print!(rt; ": granted {selected} {ended}"),
            Answer::Broken { rule, selected } => print!(rt; ": broken {rule} {selected}"),
            Answer::Refused { number } => print!(rt; ": refused {number}"),
        }
    }

    // Rule 1 is read with those after it, whose own lines then give nothing.
    fn take_rules(&mut self, rt: &impl Print, text: &[u8]) -> io::Result<()> {
        let prefix = rule_text::read_prefix(text);
        if 0 < prefix.length {
            self.list = prefix.list;
            return Ok(());
        }
        let number = forms::find(b"(rule ? ", text).map_or(0, |found| found.values[0]);
        if 1 < number && number <= self.list.length as u64 {
            return Ok(());
        }
        misplaced(rt)
    }

    fn set(&mut self, rt: &impl Print, line: Line) -> io::Result<()> {
        let state = &mut self.state;
        let list = &mut self.list;
        match line {
            Line::Fresh => *state = State::fresh(),
            Line::Time { time } => state.time = time,
            Line::EachAssigned { roles } => state.assigned = [roles; 64],
            Line::Assigned { user, role } => {
                if let Some(roles) = state.assigned.get_mut(user) {
                    *roles = roles.with(role);
                }
            }
            Line::Session {
                session,
                is_open,
                user,
            } => {
                if let Some(place) = state.sessions.get_mut(session) {
                    *place = Session {
                        is_open,
                        user,
                        position: Position::Unknown,
                    };
                }
            }
            Line::Place { session, point } => {
                if let Some(place) = state.sessions.get_mut(session) {
                    place.position = Position::Known(point);
                }
            }
            Line::Active { session, role } => {
                if let Some(roles) = state.active.get_mut(session) {
                    *roles = roles.with(role);
                }
            }
            Line::Loan { loan } => {
                let count = state.loans.count;
                if let Some(entry) = state.loans.entries.get_mut(count) {
                    *entry = loan;
                    state.loans.count = count + 1;
                }
            }
            Line::LoanCount { count } => state.loans.count = count,
            Line::ShowTime => print!(rt; " {}", state.time)?,
            Line::ShowLoanCount => print!(rt; " {}", state.loans.count)?,
            Line::ShowLoan { entry } => {
                if let Some(loan) = state.loans.entries.get(entry) {
                    print!(rt;
                        ": {} {} {} {}",
                        loan.lender, loan.borrower, loan.role, loan.until
                    )?;
                }
            }
            Line::Slot { number, rule } => {
                if (1..=RuleList::MOST).contains(&number) {
                    list.slots[number - 1] = Slot { rule };
                }
            }
            Line::NoRules => *list = no_rules(),
            Line::Right { kind, permission } => {
                if let Some(slot) = list.rights.get_mut(kind) {
                    slot.right = Right::Permission(permission);
                }
            }
        }
        Ok(())
    }
}

// Slots with a rule that nothing breaks, and none of them counted: not rule_text's empty list, whose filler breaks where it is counted.
fn no_rules() -> RuleList {
    RuleList {
        slots: [Slot {
            rule: Rule::MaxRoles { limit: 32 },
        }; 128],
        length: 0,
        rights: [RightSlot {
            right: Right::Unstated,
        }; 6],
    }
}

fn misplaced(rt: &impl Print) -> io::Result<()> {
    print!(rt; ": no line of a case")
}
