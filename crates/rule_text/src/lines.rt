// A rule or a right as a line of the text: its form and the values that stand in it; and the rule of such a line.
ghost use Rattle.std.specs.Prelude.{◌≡◌, ◌∷◌, [], ◌≤◌, ◌<◌, get_or};
ghost use Rattle.forms.specs.Numbers.{signed_code, coordinate_of};
ghost use Rattle.rules.specs.declared.families.Rule.TheVariants.{TimeContext, LocationContext};
ghost use Rattle.rule_text.specs.Lines.{line, line_of, right_line, narrow, filler, rule_of_form};

use calendar::Term;
use places::{Shape, Side};
use rules::Rule;

// The forms of a rule list, one a line; each mark stands for a number of its kind.
pub const FORMS: [u8; 666] = *b"\
(rule # (before $ $))\n\
(rule # (max-users $ >))\n\
(rule # (max-roles <))\n\
(rule # (max-permissions $ <))\n\
(rule # (max-active <))\n\
(rule # (apart $ $))\n\
(rule # (apart-active $ $))\n\
(rule # (needs $ $))\n\
(rule # (during $ (dates . .)))\n\
(rule # (during $ (week ! ! [ ])))\n\
(rule # (during $ (months , ,)))\n\
(rule # (during $ (nth ' !)))\n\
(rule # (during $ (every / .)))\n\
(rule # (at $ (inside (circle + + ^))))\n\
(rule # (at $ (inside (box + + + +))))\n\
(rule # (at $ (outside (circle + + ^))))\n\
(rule # (at $ (outside (box + + + +))))\n\
(rule # (two-hands % %))\n\
(rule # (same-hand % %))\n\
(right assign %)\n\
(right withdraw %)\n\
(right grant %)\n\
(right take %)\n\
(right lend %)\n\
(right recall %)\n";

// The forms of rules come first, and a form for each kind of right after them.
pub const RULE_FORM_COUNT: usize = 19;

// Where each form starts, and where the last one ends.
pub const STARTS: [usize; 26] = [
    0, 22, 47, 70, 101, 125, 146, 174, 195, 227, 262, 295, 325, 357, 397, 436, 477, 517, 542, 567,
    584, 603, 619, 634, 649, 666,
];

// A form and its values, a rule's own number first, 0 where the form has fewer than six.
#[derive(Clone, Copy, Debug, PartialEq, Eq)]
pub struct Line {
    pub form: usize,
    pub values: [u64; 6],
}

// The line with this form and these values. There are three such functions and not one generic: the places of a line hold numbers of two
// widths and coordinates.
fn full_line(
    form: usize,
    number: u64,
    first: u64,
    second: u64,
    third: u64,
    fourth: u64,
    fifth: u64,
) -> Line
    ensures { result ≡ line form (number ∷ first ∷ second ∷ third ∷ fourth ∷ fifth ∷ []) }
{
    Line {
        form,
        values: [number, first, second, third, fourth, fifth],
    }
}

// A line with no coordinate.
fn plain_line(
    form: usize,
    number: u64,
    first: u32,
    second: u32,
    third: u32,
    fourth: u32,
    fifth: u32,
) -> Line
    ensures { result ≡ line form (number ∷ first ∷ second ∷ third ∷ fourth ∷ fifth ∷ []) }
{
    full_line(
        form,
        number,
        first as u64,
        second as u64,
        third as u64,
        fourth as u64,
        fifth as u64,
    )
}

// A line of one or two numbers besides the rule's own.
pub fn short_line(form: usize, number: u64, first: u32, second: u32) -> Line
    ensures { result ≡ line form (number ∷ first ∷ second ∷ 0 ∷ 0 ∷ 0 ∷ []) }
{
    plain_line(form, number, first, second, 0, 0, 0)
}

// The line of a kind's right.
pub(crate) fn right_line(kind: usize, permission: u32) -> Line
    requires { kind < 6 }
    ensures { result ≡ right_line kind permission }
{
    full_line(RULE_FORM_COUNT + kind, permission as u64, 0, 0, 0, 0, 0)
}

// The line of a rule under its number.
#[tactic(auto, unfolding(crate::specs::Lines::line_of))]
pub fn line_of(number: u64, rule: Rule) -> Line
    ensures { result ≡ line_of number rule }
{
    match rule {
        Rule::Prerequisite { role, required } => short_line(0, number, role, required),
        Rule::MaxUsers { role, limit } => short_line(1, number, role, limit),
        Rule::MaxRoles { limit } => short_line(2, number, limit, 0),
        Rule::MaxPermissions { role, limit } => short_line(3, number, role, limit),
        Rule::MaxActive { limit } => short_line(4, number, limit, 0),
        Rule::StaticSeparation { first, second } => short_line(5, number, first, second),
        Rule::DynamicSeparation { first, second } => short_line(6, number, first, second),
        Rule::Dependency { role, needed } => short_line(7, number, role, needed),
        Rule::TimeContext { role, term } => term_line(number, role, term),
        Rule::LocationContext { role, side } => side_line(number, role, side),
        Rule::HistorySeparation { first, second } => short_line(17, number, first, second),
        Rule::BindingOfDuty { first, second } => short_line(18, number, first, second),
    }
}

// The line of a rule `during`: the form of its term, the role, the numbers of the term.
#[tactic(auto, unfolding(crate::specs::Lines::line_of))]
fn term_line(number: u64, role: u32, term: Term) -> Line
    ensures { result ≡ line_of number (TimeContext role term) }
{
    match term {
        Term::Dates { from, to } => plain_line(8, number, role, from, to, 0, 0),
        Term::Week {
            first,
            last,
            start,
            end,
        } => plain_line(9, number, role, first, last, start, end),
        Term::Months { first, last } => plain_line(10, number, role, first, last, 0, 0),
        Term::Nth { ordinal, weekday } => plain_line(11, number, role, ordinal, weekday, 0, 0),
        Term::Every { interval, from } => plain_line(12, number, role, interval, from, 0, 0),
    }
}

// The line of a rule `at`: the form of its side and shape, the role, the numbers of the shape.
#[tactic(auto, unfolding(crate::specs::Lines::line_of))]
fn side_line(number: u64, role: u32, side: Side) -> Line
    ensures { result ≡ line_of number (LocationContext role side) }
{
    match side {
        Side::Inside(Shape::Circle { x, y, radius }) => circle_line(13, number, role, x, y, radius),
        Side::Inside(
            Shape::Box {
                left,
                bottom,
                right,
                top,
            },
        ) => box_line(14, number, role, left, bottom, right, top),
        Side::Outside(Shape::Circle { x, y, radius }) => {
            circle_line(15, number, role, x, y, radius)
        }
        Side::Outside(
            Shape::Box {
                left,
                bottom,
                right,
                top,
            },
        ) => box_line(16, number, role, left, bottom, right, top),
    }
}

// The line of a circle; each coordinate as the value that stands for it.
fn circle_line(form: usize, number: u64, role: u32, x: i32, y: i32, radius: u32) -> Line
    ensures { result ≡ line form (number ∷ role ∷ signed_code x ∷ signed_code y ∷ radius ∷ 0 ∷ []) }
{
    full_line(
        form,
        number,
        role as u64,
        forms::signed_code(x),
        forms::signed_code(y),
        radius as u64,
        0,
    )
}

// The line of a box; each coordinate as the value that stands for it.
fn box_line(
    form: usize,
    number: u64,
    role: u32,
    left: i32,
    bottom: i32,
    right: i32,
    top: i32,
) -> Line
    ensures { result ≡ line form (number ∷ role ∷ signed_code left ∷ signed_code bottom ∷ signed_code right ∷ signed_code top ∷ []) }
{
    full_line(
        form,
        number,
        role as u64,
        forms::signed_code(left),
        forms::signed_code(bottom),
        forms::signed_code(right),
        forms::signed_code(top),
    )
}

// What stands in the slots of a list past its rules.
pub fn filler() -> Rule
    ensures { result ≡ filler }
{
    Rule::MaxRoles { limit: 0 }
}

// A value as a number of a rule or a right: itself where it is in range.
pub fn narrow(value: u64) -> u32
    ensures { result ≡ narrow value }
{
    (value % 4294967296) as u32
}

// The rule with that form and those values.
#[tactic(auto, unfolding(crate::specs::Lines::rule_of_form))]
pub fn rule_of(form: usize, values: &[u64; 6]) -> Rule
    ensures { result ≡ rule_of_form form values.now }
{
    let first = narrow(values[1]);
    let second = narrow(values[2]);
    match form {
        0 => Rule::Prerequisite {
            role: first,
            required: second,
        },
        1..=7 => role_rule(form, values),
        8..=12 => Rule::TimeContext {
            role: first,
            term: term_of(form, values),
        },
        13..=16 => Rule::LocationContext {
            role: first,
            side: side_of(form, values),
        },
        17 => Rule::HistorySeparation { first, second },
        18 => Rule::BindingOfDuty { first, second },
        _ => filler(),
    }
}

// The rules on roles from `max-users` to `needs`.
#[tactic(auto, unfolding(crate::specs::Lines::rule_of_form))]
fn role_rule(form: usize, values: &[u64; 6]) -> Rule
    requires { (1 ≤ form) × (form < 8) }
    ensures { result ≡ rule_of_form form values.now }
{
    let first = narrow(values[1]);
    let second = narrow(values[2]);
    match form {
        1 => Rule::MaxUsers {
            role: first,
            limit: second,
        },
        2 => Rule::MaxRoles { limit: first },
        3 => Rule::MaxPermissions {
            role: first,
            limit: second,
        },
        4 => Rule::MaxActive { limit: first },
        5 => Rule::StaticSeparation { first, second },
        6 => Rule::DynamicSeparation { first, second },
        _ => Rule::Dependency {
            role: first,
            needed: second,
        },
    }
}

// The term of a rule `during`.
#[tactic(auto, unfolding(crate::specs::Lines::rule_of_form))]
fn term_of(form: usize, values: &[u64; 6]) -> Term
    requires { (8 ≤ form) × (form < 13) }
    ensures { TimeContext (narrow (get_or values.now 1 0)) result ≡ rule_of_form form values.now }
{
    let first = narrow(values[2]);
    let second = narrow(values[3]);
    match form {
        8 => Term::Dates {
            from: first,
            to: second,
        },
        9 => Term::Week {
            first,
            last: second,
            start: narrow(values[4]),
            end: narrow(values[5]),
        },
        10 => Term::Months {
            first,
            last: second,
        },
        11 => Term::Nth {
            ordinal: first,
            weekday: second,
        },
        _ => Term::Every {
            interval: first,
            from: second,
        },
    }
}

// The side of a rule `at`.
#[tactic(auto, unfolding(crate::specs::Lines::rule_of_form))]
fn side_of(form: usize, values: &[u64; 6]) -> Side
    requires { (13 ≤ form) × (form < 17) }
    ensures { LocationContext (narrow (get_or values.now 1 0)) result ≡ rule_of_form form values.now }
{
    match form {
        13 => Side::Inside(circle_of(values)),
        14 => Side::Inside(box_of(values)),
        15 => Side::Outside(circle_of(values)),
        _ => Side::Outside(box_of(values)),
    }
}

// A circle: two coordinates and a radius.
fn circle_of(values: &[u64; 6]) -> Shape
    ensures { result ≡ Shape.Circle (coordinate_of (get_or values.now 2 0)) (coordinate_of (get_or values.now 3 0)) (narrow (get_or values.now 4 0)) }
{
    Shape::Circle {
        x: forms::coordinate(values[2]),
        y: forms::coordinate(values[3]),
        radius: narrow(values[4]),
    }
}

// A box: its four ends.
fn box_of(values: &[u64; 6]) -> Shape
    ensures { result ≡ Shape.Box (coordinate_of (get_or values.now 2 0)) (coordinate_of (get_or values.now 3 0)) (coordinate_of (get_or values.now 4 0)) (coordinate_of (get_or values.now 5 0)) }
{
    Shape::Box {
        left: forms::coordinate(values[2]),
        bottom: forms::coordinate(values[3]),
        right: forms::coordinate(values[4]),
        top: forms::coordinate(values[5]),
    }
}
