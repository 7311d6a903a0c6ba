// How a case writes its text: in quotes, with a backslash before the name of a byte that does not show.
ghost use Rattle.std.specs.Prelude.{◌<◌, IfSome, length};

use std::io;

// A text put together at the front of a lent space. What is past its end is left out.
#[derive(Drop)]
struct Unquoted<'a> {
    space: &'a mut [u8],
    length: usize,
}

// The number where the form stands at the front, and another where it does not.
pub(crate) fn number_at(text: &[u8], form: &[u8], otherwise: u64) -> u64 {
    forms::find(form, text).map_or(otherwise, |found| found.values[0])
}

// The first bytes of a text.
pub(crate) fn front(text: &[u8], length: usize) -> &[u8] {
    &text[..length.min(text.len())]
}

// What stands in quotes, one after the other, at the front of the lent space. What is left of the arguments is a slice, since each quote
// is as long as its text.
pub(crate) fn text_of<'a>(arguments: &[u8], space: &'a mut [u8]) -> &'a [u8] {
    let mut text = Unquoted { space, length: 0 };
    let mut rest = arguments;
    while let Some(quote) = next_quote(rest) {
        let quoted = &rest[quote + 1..];
        let Some(end) = next_quote(quoted) else {
            break;
        };
        for turn in 0..number_at(rest, b" ? \"", 1) {
            text.put_quoted(&quoted[..end], turn + 1);
        }
        rest = &quoted[end + 1..];
    }
    let Unquoted { space, length } = text;
    front(space, length)
}

fn next_quote(text: &[u8]) -> Option<usize>
    ensures { IfSome result (λ quote. quote < length text.now) }
{
    text.iter().position(|byte| *byte == b'"')
}

impl Unquoted<'_> {
    // A backslash and the name of a byte stand for the byte.
    fn put_quoted(&mut self, quoted: &[u8], turn: u64) {
        let mut is_named = false;
        for byte in quoted {
            match (is_named, *byte) {
                (false, b'\\') => {}
                (false, byte) => self.put(byte),
                (true, b'#') => self.put_number(turn),
                (true, name) => self.put(byte_of(name)),
            }
            is_named = !is_named && *byte == b'\\';
        }
    }

    fn put(&mut self, byte: u8) {
        if let Some(place) = self.space.get_mut(self.length) {
            *place = byte;
            self.length += 1;
        }
    }

    fn put_number(&mut self, number: u64) {
        self.length = forms::write_line(b"?", &[0, 1], 0, &[number], self.space, self.length);
    }
}

fn byte_of(name: u8) -> u8 {
    match name {
        b'n' => b'\n',
        b'r' => b'\r',
        b't' => b'\t',
        b'0' => 0,
        b'x' => 255,
        _ => name,
    }
}

// A text as a case would write it.
pub(crate) fn show(rt: &impl Print, text: &[u8]) -> io::Result<()> {
    print!(rt; "\"")?;
    for byte in text {
        match *byte {
            b'\n' => print!(rt; "\\n")?,
            byte => rt.write_all(&[byte])?,
        }
    }
    print!(rt; "\"")
}
