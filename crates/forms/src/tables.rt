// Tables of forms: a text, each of whose lines is a form.
ghost use Rattle.std.specs.Prelude.{◌≡◌, length};
ghost use Rattle.forms.specs.Forms.{all_in_range, fill};
ghost use Rattle.forms.specs.Tables.{found_form, found, found_likely, line_at, line_end};
ghost use Rattle.forms.specs.Writing.{Wrote};

use crate::kinds::{is_in_range, is_slot};
use crate::scanning::{Scanned, scan_form};
use crate::writing::{put_form, value_at};

// Which form of a table stands at the front of a text, with which values, and how many bytes it takes.
#[derive(Clone, Copy)]
pub struct Found {
    pub form: usize,
    pub values: [u64; 6],
    pub length: usize,
}

// The first form of the table at the front of the text.
pub fn find(table: &[u8], text: &[u8]) -> Option<Found>
    ensures { result ≡ found_form (found table.now text.now) }
{
    let mut rest = table;
    let mut form = 0;
    while !rest.is_empty() {
        let end = line_end(rest);
        if let Some(scanned) = scan_form(&rest[..end], text) {
            return Some(found_as(form, scanned));
        }
        rest = &rest[end..];
        form += 1;
    }
    None
}

// The same, with a likely form tried first. The index has where each line of the table starts, and where the last one ends. Where no two
// forms have a text in common and the index is right, a wrong guess costs time and nothing else.
pub fn find_likely(table: &[u8], starts: &[usize], likely: usize, text: &[u8]) -> Option<Found>
    ensures { result ≡ found_form (found_likely table.now starts.now likely text.now) }
{
    let form = line_at(table, starts, likely);
    if form.is_empty() {
        return find(table, text);
    }
    match scan_form(form, text) {
        Some(scanned) => Some(found_as(likely, scanned)),
        None => find(table, text),
    }
}

fn found_as(form: usize, scanned: Scanned) -> Found
    ensures { result ≡ record { form = form; values = scanned.values; length = scanned.length } }
{
    let values = scanned.values;
    Found {
        form,
        values,
        length: scanned.length,
    }
}

// Each value is in the range that its mark in the form names (else 11); the form by the index.
pub fn line_in_range(table: &[u8], starts: &[usize], form: usize, values: &[u64]) -> bool
    ensures { result ≡ all_in_range (line_at table.now starts.now form) values.now }
{
    values_in_range(line_at(table, starts, form), values)
}

// The form with its values, from place `at` of the lent list on; where it ends. Bytes past the list's end are left out. The form by the
// index.
pub fn write_line(
    table: &[u8],
    starts: &[usize],
    form: usize,
    values: &[u64],
    out: &mut [u8],
    at: usize,
) -> usize
    ensures { Wrote out.old at (fill (line_at table.now starts.now form) values.now) result out.new }
{
    put_form(line_at(table, starts, form), values, out, at)
}

// A line of the table by its index; nothing where the index has no such line.
fn line_at<'a>(table: &'a [u8], starts: &[usize], i: usize) -> &'a [u8]
    ensures { result.now ≡ line_at table.now starts.now i }
{
    if starts.len() <= i {
        return &table[0..0];
    }
    let next = i + 1;
    if starts.len() <= next {
        return &table[0..0];
    }
    let start = starts[i];
    let end = starts[next];
    if (start <= end) & (end <= table.len()) {
        return &table[start..end];
    }
    &table[0..0]
}

fn values_in_range(form: &[u8], values: &[u64]) -> bool
    ensures { result ≡ all_in_range form.now values.now }
{
    let mut count = 0;
    for mark in form {
        if !is_slot(*mark) {
            continue;
        }
        if !is_in_range(*mark, value_at(values, count)) {
            return false;
        }
        count += 1;
    }
    true
}

// The bytes up to and with the first line feed; all of them where there is none.
fn line_end(text: &[u8]) -> usize
    ensures { result ≡ line_end text.now }
{
    for (i, byte) in text.iter().enumerate() {
        if *byte == b'\n' {
            return i + 1;
        }
    }
    text.len()
}
