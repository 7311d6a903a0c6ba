// A form with its values, written into a lent list. A byte past the list's end is left out, so that writing into an empty part measures.
ghost use Rattle.std.specs.Prelude.{◌≡◌, true, ◌∷◌, [], get_or};
ghost use Rattle.forms.specs.Numbers.{digits_of, signed_of, fixed_of};
ghost use Rattle.forms.specs.Kinds.{is_slot};
ghost use Rattle.forms.specs.Forms.{item_text, fill};
ghost use Rattle.forms.specs.Writing.{Wrote};
ghost use Rattle.forms.specs.Refusals.{write_number};

use crate::kinds::{Syntax, is_plain, is_slot, syntax_of};
use crate::numbers::Number;

// Why a text is not written.
#[derive(Clone, Copy, Debug, PartialEq, Eq)]
pub enum WriteRefusal {
    // What it would be the text of is not accepted.
    NotAccepted,
    // The lent space is shorter than the text.
    NoRoom,
}

impl WriteRefusal {
    // The number that answers name it by.
    pub fn number(self) -> u64
        ensures { result ≡ write_number self }
    {
        match self {
            WriteRefusal::NotAccepted => 40,
            WriteRefusal::NoRoom => 18,
        }
    }
}

// The form with its values, from place `at` on; where it ends.
pub(crate) fn put_form(form: &[u8], values: &[u64], out: &mut [u8], at: usize) -> usize
    ensures { Wrote out.old at (fill form.now values.now) result out.new }
{
    let mut place = at;
    let mut count = 0;
    for mark in form {
        if !is_slot(*mark) {
            place = put(*mark, out, place);
            continue;
        }
        place = put_item(*mark, value_at(values, count), out, place);
        count += 1;
    }
    place
}

// The number of a mark.
fn put_item(mark: u8, value: u64, out: &mut [u8], at: usize) -> usize
    requires { is_slot mark ≡ true }
    ensures { Wrote out.old at (item_text mark value) result out.new }
{
    if is_plain(mark) {
        return put_number(value, out, at);
    }
    match syntax_of(mark) {
        Syntax::Literal => put(mark, out, at),
        Syntax::Number | Syntax::Positive => put_number(value, out, at),
        Syntax::Signed => put_signed(value, out, at),
        Syntax::Date => put_fixed(8, value, out, at),
        Syntax::TimeOfDay => put_fixed(4, value, out, at),
    }
}

// A plain number. Most have one or two digits.
fn put_number(value: u64, out: &mut [u8], at: usize) -> usize
    ensures { Wrote out.old at (digits_of value) result out.new }
{
    if value < 10 {
        return put((48 + value) as u8, out, at);
    }
    if 100 <= value {
        return put_digits(value, out, at);
    }
    let place = put((48 + value / 10) as u8, out, at);
    put((48 + value % 10) as u8, out, place)
}

// One digit after the other, the last one last: by recursion, since a division gives the last one first.
fn put_digits(value: u64, out: &mut [u8], at: usize) -> usize
    ensures { Wrote out.old at (digits_of value) result out.new }
{
    if value < 10 {
        return put((48 + value) as u8, out, at);
    }
    let place = put_digits(value / 10, out, at);
    put((48 + value % 10) as u8, out, place)
}

fn put_signed(value: u64, out: &mut [u8], at: usize) -> usize
    ensures { Wrote out.old at (signed_of value) result out.new }
{
    if Number::MINUS < value {
        let place = put(b'-', out, at);
        return put_number(value - Number::MINUS, out, place);
    }
    put_number(value, out, at)
}

fn put_fixed(count: usize, value: u64, out: &mut [u8], at: usize) -> usize
    ensures { Wrote out.old at (fixed_of count value) result out.new }
{
    if count == 0 {
        return at;
    }
    let place = put_fixed(count - 1, value / 10, out, at);
    put((48 + value % 10) as u8, out, place)
}

fn put(byte: u8, out: &mut [u8], at: usize) -> usize
    ensures { Wrote out.old at (byte ∷ []) result out.new }
{
    if at < out.len() {
        out[at] = byte;
        return at + 1;
    }
    if at == 18_446_744_073_709_551_615 {
        return at;
    }
    at + 1
}

// The value of the slot that comes next.
pub(crate) fn value_at(values: &[u64], count: usize) -> u64
    ensures { result ≡ get_or values.now count 0 }
{
    values.get(count).copied().unwrap_or(0)
}
