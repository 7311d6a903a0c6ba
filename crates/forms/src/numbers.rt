// Numbers as texts write them: plain, with a minus, or with as many digits as a date or a time of day has.
ghost use Rattle.std.specs.Prelude.{◌≡◌, ◌≤◌, ◌<◌, ◌+◌, ◌*◌, ◌&&◌, cond, ltb, Some, None};
ghost use Rattle.forms.specs.Numbers.{read_number, read_positive, read_signed, read_fixed, read_byte, found_number, is_digit, digit_value, signed_value, signed_code, coordinate_of};

// A number at the front of a text: its value, and how many bytes it takes.
#[derive(Clone, Copy)]
pub struct Number {
    pub value: u64,
    pub length: usize,
}

impl Number {
    // A number below 0 is held as its amount and this.
    pub const MINUS: u64 = 10_000_000_000;
}

// No leading zeros, at most ten digits.
#[tactic(auto, using(crate::proofs::Turns::zeros))]
pub(crate) fn read_number(text: &[u8]) -> Option<Number>
    ensures { result ≡ found_number (read_number text.now) }
{
    let [first, rest @ ..] = text else {
        return None;
    };
    if *first == b'0' {
        return Some(Number {
            value: 0,
            length: 1,
        });
    }
    let mut value = continued(0, *first)?;
    for (i, byte) in rest.iter().enumerate() {
        let Some(longer) = continued(value, *byte) else {
            return Some(Number {
                value,
                length: 1 + i,
            });
        };
        value = longer;
    }
    Some(Number {
        value,
        length: text.len(),
    })
}

// A number other than 0.
pub(crate) fn read_positive(text: &[u8]) -> Option<Number>
    ensures { result ≡ found_number (read_positive text.now) }
{
    let number = read_number(text)?;
    (0 < number.value).then_some(number)
}

// A number, or a minus and a number other than 0.
pub(crate) fn read_signed(text: &[u8]) -> Option<Number>
    ensures { result ≡ found_number (read_signed text.now) }
{
    let [b'-', rest @ ..] = text else {
        return read_number(text);
    };
    let amount = read_positive(rest)?;
    Some(Number {
        value: Number::MINUS + amount.value,
        length: 1 + amount.length,
    })
}

// A number of just so many digits.
pub(crate) fn read_fixed(count: usize, text: &[u8]) -> Option<Number>
    requires { (0 < count) × (count ≤ 8) }
    ensures { result ≡ found_number (read_fixed count text.now) }
{
    let mut value = 0;
    for byte in text.get(..count)? {
        value = continued(value, *byte)?;
    }
    Some(Number {
        value,
        length: count,
    })
}

// The byte itself.
#[tactic(auto, unfolding(crate::specs::Numbers::read_byte))]
pub(crate) fn read_byte(expected: u8, text: &[u8]) -> Option<Number>
    ensures { result ≡ found_number (read_byte expected text.now) }
{
    (text.first() == Some(&expected)).then_some(Number {
        value: 0,
        length: 1,
    })
}

// The number that is held as value. What is no such number is 0.
pub fn signed_value(value: u64) -> i64
    ensures { result ≡ signed_value value }
{
    if value < Number::MINUS {
        return value as i64;
    }
    if value < 2 * Number::MINUS {
        return 0 - ((value - Number::MINUS) as i64);
    }
    0
}

// A value as a coordinate. Off the grid there is none, and 0 stands for it.
pub fn coordinate(value: u64) -> i32
    ensures { result ≡ coordinate_of value }
{
    let number = signed_value(value);
    if !places::on_grid(number) {
        return 0;
    }
    number as i32
}

// How a number is held.
pub fn signed_code(number: i32) -> u64
    ensures { result ≡ signed_code number }
{
    let wide = number as i64;
    if wide < 0 {
        return (10_000_000_000 - wide) as u64;
    }
    wide as u64
}

// The number with one digit more: none where the byte is no digit, or it has ten digits already.
#[tactic(auto, unfolding(crate::specs::Numbers::is_digit))]
fn continued(value: u64, byte: u8) -> Option<u64>
    ensures { result ≡ cond (ltb value 1000000000 && is_digit byte) (Some (value * 10 + digit_value byte)) None }
{
    (value < 1_000_000_000 && byte.is_ascii_digit()).then(|| value * 10 + u64::from(byte - b'0'))
}
