// One form against the front of a text.
ghost use Rattle.std.specs.Prelude.{◌≡◌, ◌+◌, ◌≤◌, ◌<◌, true, cond, drop, replicate, set};
ghost use Rattle.forms.specs.Numbers.{found_number, read_byte, value_and_length, nothing};
ghost use Rattle.forms.specs.Kinds.{is_slot};
ghost use Rattle.forms.specs.Forms.{read_item, scan, scanned, scanned_told};
ghost use Rattle.forms.specs.Writing.{last_place};

use crate::kinds::{Syntax, is_plain, is_slot, syntax_of};
use crate::numbers::{Number, read_byte, read_fixed, read_number, read_positive, read_signed};

// What was read so far: the values, how many they are, and the bytes that they and what stands between them take.
#[derive(Clone, Copy)]
pub(crate) struct Scanned {
    pub values: [u64; 6],
    pub count: usize,
    pub length: usize,
}

impl Scanned {
    fn nothing() -> Scanned
        ensures { result ≡ record { values = replicate 6 0; count = 0; length = 0 } }
    {
        Scanned {
            values: [0; 6],
            count: 0,
            length: 0,
        }
    }

    // One number more. A seventh has no place.
    fn add(&mut self, number: Number)
        requires { (self.old.count < last_place) × (self.old.length + number.length ≤ last_place) }
        ensures { self.new ≡ record { values = set self.old.values self.old.count number.value; count = self.old.count + 1; length = self.old.length + number.length } }
    {
        if self.count < self.values.len() {
            self.values[self.count] = number.value;
        }
        self.count += 1;
        self.length += number.length;
    }
}

// The form at the front of the text. Its own bytes are compared as they stand, and only a mark is looked up.
pub(crate) fn scan_form(form: &[u8], text: &[u8]) -> Option<Scanned>
    ensures { scanned_told result ≡ scanned (scan form.now text.now) }
{
    let mut scanned = Scanned::nothing();
    for mark in form {
        if is_slot(*mark) {
            let rest = &text[scanned.length..];
            let number = read_item(*mark, rest)?;
            scanned.add(number);
            continue;
        }
        if !stands(*mark, text, scanned.length) {
            return None;
        }
        scanned.length += 1;
    }
    Some(scanned)
}

// The byte stands at that place.
#[tactic(auto, using(crate::proofs::Turns::places))]
fn stands(byte: u8, text: &[u8], at: usize) -> bool
    ensures { cond result (value_and_length 0 1) nothing ≡ read_byte byte (drop at text.now) }
{
    at < text.len() && text[at] == byte
}

// The number of a mark at the front of the text.
fn read_item(mark: u8, text: &[u8]) -> Option<Number>
    requires { is_slot mark ≡ true }
    ensures { result ≡ found_number (read_item mark text.now) }
{
    if is_plain(mark) {
        return read_number(text);
    }
    match syntax_of(mark) {
        Syntax::Literal => read_byte(mark, text),
        Syntax::Number => read_number(text),
        Syntax::Positive => read_positive(text),
        Syntax::Signed => read_signed(text),
        Syntax::Date => read_fixed(8, text),
        Syntax::TimeOfDay => read_fixed(4, text),
    }
}
