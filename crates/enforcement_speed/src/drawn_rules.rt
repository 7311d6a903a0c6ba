// The rules of a list.
use crate::generator::Generator;
use crate::lists::{List, Mix};
use calendar::Term;
use places::{Shape, Side};
use rules::{Right, RightSlot, Rule, RuleList, Slot};
use std::array;

#[derive(Clone, Copy)]
enum Family {
    Prerequisite,
    MaxUsers,
    MaxRoles,
    MaxPermissions,
    MaxActive,
    StaticSeparation,
    DynamicSeparation,
    Dependency,
    TimeContext,
    LocationContext,
    HistorySeparation,
    BindingOfDuty,
}

const FAMILIES: [Family; 12] = [
    Family::Prerequisite,
    Family::MaxUsers,
    Family::MaxRoles,
    Family::MaxPermissions,
    Family::MaxActive,
    Family::StaticSeparation,
    Family::DynamicSeparation,
    Family::Dependency,
    Family::TimeContext,
    Family::LocationContext,
    Family::HistorySeparation,
    Family::BindingOfDuty,
];

const HEAVY_FAMILIES: [Family; 5] = [
    Family::MaxRoles,
    Family::MaxActive,
    Family::Dependency,
    Family::TimeContext,
    Family::LocationContext,
];

pub(crate) fn rules(list: List) -> RuleList {
    let mut generator = Generator::new(2000 + u64::from(list.number));
    RuleList {
        slots: array::from_fn(|i| Slot {
            rule: draw_rule(family_at(list.mix, i), &mut generator),
        }),
        length: list.length,
        rights: [RightSlot {
            right: Right::Unstated,
        }; 6],
    }
}

fn family_at(mix: Mix, i: usize) -> Family {
    match mix {
        Mix::Heavy => HEAVY_FAMILIES[i % HEAVY_FAMILIES.len()],
        Mix::Mixed | Mix::WithLoans => FAMILIES[i % FAMILIES.len()],
    }
}

fn draw_rule(family: Family, generator: &mut Generator) -> Rule {
    let r = generator.draw() % 32;
    let q = (r + 1 + generator.draw() % 31) % 32;
    let n = generator.draw();
    match family {
        Family::Prerequisite => Rule::Prerequisite {
            role: r,
            required: q,
        },
        Family::MaxUsers => Rule::MaxUsers {
            role: r,
            limit: 30 + n % 35,
        },
        Family::MaxRoles => Rule::MaxRoles { limit: 16 + n % 17 },
        Family::MaxPermissions => Rule::MaxPermissions {
            role: r,
            limit: 12 + n % 21,
        },
        Family::MaxActive => Rule::MaxActive { limit: 6 + n % 27 },
        Family::StaticSeparation => Rule::StaticSeparation {
            first: r,
            second: q,
        },
        Family::DynamicSeparation => Rule::DynamicSeparation {
            first: r,
            second: q,
        },
        Family::Dependency => Rule::Dependency { role: r, needed: q },
        Family::TimeContext => Rule::TimeContext {
            role: r,
            term: week_of(n),
        },
        Family::LocationContext => Rule::LocationContext {
            role: r,
            side: side_of(n),
        },
        Family::HistorySeparation => Rule::HistorySeparation {
            first: r,
            second: q,
        },
        Family::BindingOfDuty => Rule::BindingOfDuty {
            first: r,
            second: q,
        },
    }
}

// Six days of the week, and an interval of the day that often goes past midnight.
fn week_of(n: u32) -> Term {
    Term::Week {
        first: n % 7 + 1,
        last: (n % 7 + 5) % 7 + 1,
        start: n / 49 % 24 * 100,
        end: (n / 49 % 24 + 14) % 24 * 100 + 30,
    }
}

fn side_of(n: u32) -> Side {
    match n % 4 {
        0 => Side::Inside(Shape::Circle {
            x: 100,
            y: -100,
            radius: 700 + n % 300,
        }),
        1 => Side::Outside(Shape::Circle {
            x: -200,
            y: 50,
            radius: 200 + n % 300,
        }),
        2 => Side::Inside(Shape::Box {
            left: -900,
            bottom: -800,
            right: 850,
            top: 950,
        }),
        _ => Side::Outside(Shape::Box {
            left: -300,
            bottom: -200,
            right: 300,
            top: 250,
        }),
    }
}
