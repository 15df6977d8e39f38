// A line, and the record that it says.
ghost use Rattle.std.specs.Prelude.{◌≡◌, ◌≤◌, length};
ghost use Rattle.std.specs.Bool.{OnTrue};
ghost use Rattle.intelhex.specs.Meaning.{Says, Forms};
ghost use Rattle.intelhex.specs.Records;
ghost use Rattle.intelhex.specs.Records.{pairs};

use crate::digits::{all_digits, pair, sum};

// Bytes for the image: the address, and the digits, two for each byte.
#[derive(Clone, Copy)]
pub struct Bytes<'a> {
    pub address: u16,
    pub digits: &'a [u8],
}

#[derive(Clone, Copy)]
pub enum Record<'a> {
    Holds(Bytes<'a>),
    End,
}

// What follows the colon, if a line is a colon and pairs of digits.
fn formed(s: &[u8]) -> Option<&[u8]>
    ensures { Forms s.now result }
{
    let digits = s.strip_prefix(b":")?;
    if digits.len() % 2 != 0 || !all_digits(digits) {
        return None;
    }
    Some(digits)
}

// Whether there are as many bytes as the count says, and their sum is 0.
fn checked(digits: &[u8]) -> bool
    ensures value { result ≡ Records.checked (pairs digits.now) }
    ensures long { OnTrue result (10 ≤ length digits.now) }
{
    let n = digits.len() / 2;
    if n < 5 {
        return false;
    }
    let count = usize::from(pair(digits, 0));
    if n != count + 5 {
        return false;
    }
    let total = sum(digits);
    total == 0
}

// The record of a line without its end.
pub fn record_in(s: &[u8]) -> Option<Record<'_>>
    ensures { Says s.now result }
{
    let digits = formed(s)?;
    if !checked(digits) {
        return None;
    }
    let count = pair(digits, 0);
    let address = u16::from(pair(digits, 2)) * 256 + u16::from(pair(digits, 4));
    match pair(digits, 6) {
        0 => {
            let end = digits.len() - 2;
            Some(Record::Holds(Bytes {
                address,
                digits: &digits[8..end],
            }))
        }
        1 if count == 0 && address == 0 => Some(Record::End),
        _ => None,
    }
}
