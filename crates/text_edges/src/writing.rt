// Rule lists, in either language, saved states and responses, written where so many bytes are lent.
use crate::quoting;
use forms::WriteRefusal;
use std::io;

// What a space holds before.
const UNTOUCHED: u8 = b'.';

// Why nothing was written: the number of the refusal, and of policies its place.
#[derive(Clone, Copy)]
pub(crate) struct Refused {
    number: u64,
    place: Option<usize>,
}

impl From<WriteRefusal> for Refused {
    fn from(refusal: WriteRefusal) -> Refused {
        Refused {
            number: refusal.number(),
            place: None,
        }
    }
}

impl From<policy_text::WriteRefusal> for Refused {
    fn from(refusal: policy_text::WriteRefusal) -> Refused {
        Refused {
            number: refusal.number(),
            place: Some(refusal.place()),
        }
    }
}

// The response, where 1,024 bytes are lent.
pub(crate) fn show_response(rt: &impl Print, text: &[u8]) -> io::Result<()> {
    let mut out = [0; 1024];
    let length = texts::respond(text, &mut out).unwrap_or(0);
    quoting::show(rt, quoting::front(&out, length))
}

pub(crate) fn show_response_length(rt: &impl Print, text: &[u8]) -> io::Result<()> {
    let mut out = [0; 131_072];
    show(rt, texts::respond(text, &mut out).map_err(Refused::from))
}

// Lends the first bytes of a space, and shows what came, the text, and how many of the first 1,024 bytes stand untouched after it. More
// bytes than there are are not lent: then the number is 0.
pub(crate) fn lend<F: FnOnce(&mut [u8]) -> Result<usize, Refused>>(
    rt: &impl Print,
    room: usize,
    write: F,
) -> io::Result<()>
    requires { F.IsAlwaysCallable write }
{
    let mut space = [UNTOUCHED; 131_072];
    let written = match space.get_mut(..room) {
        Some(out) => write(out),
        None => Err(Refused {
            number: 0,
            place: None,
        }),
    };
    show(rt, written)?;
    print!(rt; " ")?;
    quoting::show(rt, quoting::front(&space, written.unwrap_or(0)))?;
    let untouched = untouched(quoting::front(&space, 1024));
    print!(rt; " {untouched} bytes untouched")
}

// The bytes after the last one that was written.
fn untouched(space: &[u8]) -> usize {
    space
        .iter()
        .rev()
        .take_while(|byte| **byte == UNTOUCHED)
        .count()
}

fn show(rt: &impl Print, written: Result<usize, Refused>) -> io::Result<()> {
    match written {
        Ok(length) => print!(rt; "length {length}"),
        Err(
            Refused {
                number,
                place: Some(place),
            },
        ) => {
            print!(rt; "place {place}, ")?;
            print!(rt; "{number}")
        }
        Err(
            Refused {
                number,
                place: None,
            },
        ) => print!(rt; "{number}"),
    }
}
