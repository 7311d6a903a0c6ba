// A step by its numbers, of which each may be any that its field holds.
ghost use Rattle.std.specs.Prelude.{◌≤◌};

use steps::{Acting, Step};

// kind, then first, second, third, x, y and fourth; one that is left out is 0
pub(crate) fn step_of(line: &[u8]) -> Step {
    step_from(line, 1, Acting::Nobody)
}

// by and the acting session, then the same
pub(crate) fn step_by(line: &[u8]) -> Step {
    step_from(line, 3, Acting::InSession(number_after(1, line)))
}

// The kind stands after so many spaces.
fn step_from(line: &[u8], spaces: usize, by: Acting) -> Step
    requires { spaces ≤ 3 }
{
    Step {
        kind: number_after(spaces, line),
        first: number_after(spaces + 1, line),
        second: number_after(spaces + 2, line),
        third: number_after(spaces + 3, line),
        fourth: number_after(spaces + 6, line),
        x: number_after(spaces + 4, line).cast_signed(),
        y: number_after(spaces + 5, line).cast_signed(),
        by,
    }
}

// The number after so many spaces; -n is 2^64 - n.
pub(crate) fn number_after(spaces: usize, line: &[u8]) -> u64 {
    let Some(word) = line.split(|byte| *byte == b' ').nth(spaces) else {
        return 0;
    };
    let amount = word
        .iter()
        .filter_map(|byte| char::from(*byte).to_digit(10))
        .fold(0, with_digit);
    if word.contains(&b'-') {
        return amount.wrapping_neg();
    }
    amount
}

fn with_digit(amount: u64, digit: u32) -> u64 {
    (amount % 1_844_674_407_370_955_162 * 10).wrapping_add(u64::from(digit))
}
