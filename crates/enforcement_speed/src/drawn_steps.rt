// The steps of a list.
ghost use Rattle.std.specs.Prelude.{◌≤◌};

use crate::generator::Generator;
use crate::lists::{List, Mix};
use std::array;
use steps::{Acting, Step};

const COORDINATES: [i64; 8] = [-900, -650, -400, -150, 100, 350, 600, 850];

// A batch by its number. Each step of a list has a thousand seconds.
pub(crate) fn batch(list: List, number: u32, generator: &mut Generator) -> [Step; 256]
    requires { number ≤ 4096 }
{
    array::from_fn(|i| {
        let drawn = [
            generator.draw(),
            generator.draw(),
            generator.draw(),
            generator.draw(),
        ];
        let start = (number * 256 + i as u32) * 1000;
        step_of(list.mix, start, drawn.map(u64::from))
    })
}

// Of users one past the last too, so that 20 is met; of times some before the present one, so that 21 and 52 are.
fn step_of(mix: Mix, start: u32, drawn: [u64; 4]) -> Step {
    let [a, b, c, d] = drawn;
    let kind = kind_of(mix, a);
    let (first, second, third, fourth) = match kind {
        // The users from 48 on, who are assigned none, borrow eight roles, each user a role from the same lender every time. So a loan is
        // often granted, and a recall often names one.
        Step::LEND | Step::RECALL => (
            (c % 17 + d % 8) % 8,
            48 + c % 17,
            d % 8 * 4,
            u64::from(start) + b % 1000000,
        ),
        Step::ASSIGN | Step::WITHDRAW => (assigned_user(mix, b), c % 32, d % 32, 0),
        Step::OPEN => (b % 32, c % 65, d % 32, 0),
        Step::CLOCK => (u64::from(start) + b % 40000, c % 32, d % 32, 0),
        _ => (b % 32, c % 32, d % 32, 0),
    };
    Step {
        kind,
        first,
        second,
        third,
        fourth,
        x: COORDINATES[(c % 8) as usize],
        y: COORDINATES[(d % 8) as usize],
        by: Acting::Nobody,
    }
}

fn kind_of(mix: Mix, drawn: u64) -> u64 {
    match mix {
        Mix::Mixed => mixed_kind(drawn % 64),
        Mix::Heavy => heavy_kind(drawn % 64),
        Mix::WithLoans => kind_with_loans(drawn % 80),
    }
}

fn kind_with_loans(weight: u64) -> u64 {
    match weight {
        0..=63 => mixed_kind(weight),
        64..=71 => Step::LEND,
        _ => Step::RECALL,
    }
}

fn mixed_kind(weight: u64) -> u64 {
    match weight {
        0..=10 => Step::ASSIGN,
        11..=14 => Step::WITHDRAW,
        15..=20 => Step::GRANT,
        21..=24 => Step::TAKE,
        25..=30 => Step::OPEN,
        31..=42 => Step::ACTIVATE,
        43..=46 => Step::DEACTIVATE,
        47..=54 => Step::ACCESS,
        55 => Step::FINISH,
        56..=57 => Step::CLOSE,
        58..=60 => Step::MOVE,
        61 => Step::LOST,
        _ => Step::CLOCK,
    }
}

// Only kinds that select rules by their family, whatever role they name, and open.
fn heavy_kind(weight: u64) -> u64 {
    match weight {
        0..=14 => Step::ASSIGN,
        15..=22 => Step::OPEN,
        23..=44 => Step::ACTIVATE,
        45..=46 => Step::CLOSE,
        47..=56 => Step::MOVE,
        57..=58 => Step::LOST,
        _ => Step::CLOCK,
    }
}

// Where the users from 48 on borrow roles, they are assigned none.
fn assigned_user(mix: Mix, drawn: u64) -> u64 {
    match mix {
        Mix::WithLoans => drawn % 48,
        Mix::Mixed | Mix::Heavy => drawn % 65,
    }
}
