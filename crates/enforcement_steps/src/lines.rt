// The lines besides steps and rules, in the forms of a saved text or a rule list and with any number: nothing is refused here.
use calendar::Term;
use loans::Loan;
use places::{Point, Shape, Side};
use rules::Rule;

#[derive(Clone, Copy)]
pub(crate) enum Line {
    Fresh,
    Time {
        time: u64,
    },
    // Each user is assigned the same set of roles.
    EachAssigned {
        roles: u32,
    },
    Assigned {
        user: usize,
        role: usize,
    },
    Session {
        session: usize,
        is_open: bool,
        user: u32,
    },
    Place {
        session: usize,
        point: Point,
    },
    Active {
        session: usize,
        role: usize,
    },
    // One more, while there is an entry for it.
    Loan {
        loan: Loan,
    },
    // The state is said to have so many loans; its entries stay.
    LoanCount {
        count: usize,
    },
    ShowTime,
    ShowLoanCount,
    // What stands in an entry, also past the loans that there are.
    ShowLoan {
        entry: usize,
    },
    // Rule n stands in slot n - 1; the list's length stays.
    Slot {
        number: usize,
        rule: Rule,
    },
    NoRules,
    // The right of a kind, counted from 0 in the order of right lines.
    Right {
        kind: usize,
        permission: u32,
    },
}

const FORMS: [u8; 374] = *b"\
fresh\n\
state (now ?)\n\
state (each assigned ?)\n\
state (assigned ? ?)\n\
state (open ? ?)\n\
state (closed ? ?)\n\
state (place ? _ _)\n\
state (active ? ?)\n\
state (loan ? ? ? ?)\n\
state (loans ?)\n\
time\n\
loans\n\
loan ?\n\
slot ? (max-roles ?)\n\
slot ? (needs ? ?)\n\
slot ? (during ? (months ? ?))\n\
slot ? (during ? (dates ? ?))\n\
slot ? (at ? (inside (box _ _ _ _)))\n\
no rules\n\
state (place ? _ _ ?)\n\
right ? ?\n";

pub(crate) fn read(text: &[u8]) -> Option<Line> {
    let found = forms::find(&FORMS, text)?;
    line_of(found.form, &found.values)
}

// The line of a form, counted from 0.
fn line_of(form: usize, values: &[u64; 6]) -> Option<Line> {
    let [first, second, third, fourth, ..] = *values;
    let line = match form {
        0 => Line::Fresh,
        1 => Line::Time { time: first },
        2 => Line::EachAssigned {
            roles: narrow(first),
        },
        3 => Line::Assigned {
            user: first as usize,
            role: second as usize,
        },
        4 | 5 => Line::Session {
            session: first as usize,
            is_open: form == 4,
            user: narrow(second),
        },
        6 | 19 => Line::Place {
            session: first as usize,
            point: Point {
                x: coordinate(second),
                y: coordinate(third),
                error: narrow(fourth),
            },
        },
        7 => Line::Active {
            session: first as usize,
            role: second as usize,
        },
        8 => Line::Loan {
            loan: Loan {
                until: narrow(fourth),
                lender: to_byte(first),
                borrower: to_byte(second),
                role: to_byte(third),
            },
        },
        9 => Line::LoanCount {
            count: first as usize,
        },
        10 => Line::ShowTime,
        11 => Line::ShowLoanCount,
        12 => Line::ShowLoan {
            entry: first as usize,
        },
        13..=17 => Line::Slot {
            number: first as usize,
            rule: rule_of(form, values),
        },
        18 => Line::NoRules,
        20 => Line::Right {
            kind: first as usize,
            permission: narrow(second),
        },
        _ => return None,
    };
    Some(line)
}

fn rule_of(form: usize, values: &[u64; 6]) -> Rule {
    let role = narrow(values[1]);
    match form {
        13 => Rule::MaxRoles { limit: role },
        14 => Rule::Dependency {
            role,
            needed: narrow(values[2]),
        },
        15 => Rule::TimeContext {
            role,
            term: Term::Months {
                first: narrow(values[2]),
                last: narrow(values[3]),
            },
        },
        16 => Rule::TimeContext {
            role,
            term: Term::Dates {
                from: narrow(values[2]),
                to: narrow(values[3]),
            },
        },
        _ => Rule::LocationContext {
            role,
            side: Side::Inside(Shape::Box {
                left: forms::coordinate(values[2]),
                bottom: forms::coordinate(values[3]),
                right: forms::coordinate(values[4]),
                top: forms::coordinate(values[5]),
            }),
        },
    }
}

// A coordinate on the grid or off it.
fn coordinate(value: u64) -> i32 {
    i32::try_from(forms::signed_value(value)).unwrap_or(0)
}

fn narrow(value: u64) -> u32 {
    (value % 4_294_967_296) as u32
}

fn to_byte(value: u64) -> u8 {
    (value % 256) as u8
}
