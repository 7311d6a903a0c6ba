// Which form a line likely has, by the letters that tell the forms apart. A wrong guess costs time and nothing else.
ghost use Rattle.std.specs.Prelude.{◌≡◌, ◌≤◌, get_or};

// The line of a right, or of the rule with this number: `(rule 1 (` has nine bytes, and a number of more digits as many more.
pub(crate) fn likely_form(text: &[u8], number: u64) -> usize {
    if byte_at(text, 2) == b'i' {
        return likely_right(text);
    }
    let at = word_start(number);
    match byte_at(text, at) {
        b'b' => 0,
        b'm' => likely_limit(byte_at(text, at + 4)),
        b'a' => likely_apart(text, at),
        b'n' => 7,
        b'd' => likely_term(byte_at(text, after_role(text, at + 7))),
        b't' => 17,
        _ => 18,
    }
}

// `assign`, `withdraw`, `grant`, `take`, `lend`, `recall`, after `(right `
pub(crate) fn likely_right(text: &[u8]) -> usize {
    match byte_at(text, 7) {
        b'a' => 19,
        b'w' => 20,
        b'g' => 21,
        b't' => 22,
        b'l' => 23,
        _ => 24,
    }
}

fn word_start(number: u64) -> usize
    ensures { result ≤ 11 }
{
    match number {
        0..=9 => 9,
        10..=99 => 10,
        _ => 11,
    }
}

// `max-users`, `max-roles`, `max-permissions`, `max-active`
fn likely_limit(letter: u8) -> usize {
    match letter {
        b'u' => 1,
        b'r' => 2,
        b'p' => 3,
        _ => 4,
    }
}

// `apart`, `apart-active` or `at`
fn likely_apart(text: &[u8], at: usize) -> usize
    requires { at ≤ 11 }
{
    if byte_at(text, at + 1) == b't' {
        return likely_side(text, after_role(text, at + 3));
    }
    if byte_at(text, at + 5) == b'-' {
        return 6;
    }
    5
}

// `dates`, `week`, `months`, `nth`, `every`
fn likely_term(letter: u8) -> usize {
    match letter {
        b'd' => 8,
        b'w' => 9,
        b'm' => 10,
        b'n' => 11,
        _ => 12,
    }
}

// `inside (circle`, `inside (box`, `outside (circle`, `outside (box`
fn likely_side(text: &[u8], at: usize) -> usize
    requires { at ≤ 22 }
{
    if byte_at(text, at) == b'i' {
        return 13 + likely_shape(byte_at(text, at + 8));
    }
    15 + likely_shape(byte_at(text, at + 9))
}

fn likely_shape(letter: u8) -> usize
    ensures { result ≤ 1 }
{
    usize::from(letter == b'b')
}

// What follows a role of one or two digits and ` (`.
fn after_role(text: &[u8], at: usize) -> usize
    requires { at ≤ 18 }
    ensures { result ≤ 22 }
{
    if byte_at(text, at + 1) == b' ' {
        return at + 3;
    }
    at + 4
}

// Past the end of the text, 0.
pub(crate) fn byte_at(text: &[u8], i: usize) -> u8
    ensures { result ≡ get_or text.now i 0 }
{
    text.get(i).copied().unwrap_or(0)
}
