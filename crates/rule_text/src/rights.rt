// Reading the rights of a rule list: the lines before its rules, at most one a kind, in the order of the kinds.
ghost use Rattle.std.specs.Prelude.{◌≡◌, ◌≤◌, ◌<◌};
ghost use Rattle.rule_text.specs.Lines.{line_count};
ghost use Rattle.rule_text.specs.Reading.{right_told, read_right, read_rights};

use crate::guesses::{byte_at, likely_right};
use crate::lines;
use crate::lines::{FORMS, RULE_FORM_COUNT, STARTS};
use rules::{Right, RightSlot, RuleList};

// The right of one kind, and how many bytes its line has.
#[derive(Clone, Copy)]
pub struct RightRead {
    pub right: Right,
    pub length: usize,
}

// A right, or none, for each kind; the bytes of their lines, and how many lines there are.
#[derive(Clone, Copy)]
pub struct RightsRead {
    pub rights: [RightSlot; 6],
    pub length: usize,
    pub lines: usize,
}

// The kind's right where its line stands at the front of a text and its permission is in range; else there is none. What stands there
// then is told where it is read as the line of a rule. The third byte tells `(right` from `(rule`.
fn read_right(kind: usize, text: &[u8]) -> Option<RightRead>
    requires { kind < 6 }
    ensures { right_told result ≡ read_right kind text.now }
{
    if byte_at(text, 2) != b'i' {
        return None;
    }
    let found = forms::find_likely(&FORMS, &STARTS, likely_right(text), text)?;
    if found.form != RULE_FORM_COUNT + kind {
        return None;
    }
    if !forms::line_in_range(&FORMS, &STARTS, found.form, &found.values) {
        return None;
    }
    Some(RightRead {
        right: Right::Permission(lines::narrow(found.values[0])),
        length: found.length,
    })
}

// A right has one line, and none where it is not stated.
pub fn line_count(right: Right) -> usize
    ensures { (result ≡ line_count right) × (result ≤ 1) }
{
    match right {
        Right::Unstated => 0,
        Right::Permission(_) => 1,
    }
}

// Reads the lines of rights at the front of a text, kind after kind.
pub fn read_rights(text: &[u8]) -> RightsRead
    ensures { result ≡ read_rights text.now }
{
    let mut read = RightsRead {
        rights: [RightSlot {
            right: Right::Unstated,
        }; 6],
        length: 0,
        lines: 0,
    };
    for kind in 0..RuleList::RIGHTS {
        let rest = &text[read.length..];
        if let Some(line) = read_right(kind, rest) {
            read.rights[kind] = RightSlot { right: line.right };
            read.length += line.length;
            read.lines += line_count(line.right);
        }
    }
    read
}
