// A text of records read into an image, and an image written as one.
ghost use Rattle.std.specs.Prelude.{◌≡◌};
ghost use Rattle.lines.specs.Digits.{laid};
ghost use Rattle.intelhex.specs.Dump;
ghost use Rattle.intelhex.specs.Dump.{told};
ghost use Rattle.intelhex.specs.Meaning.{Reads, Writes, clash_of, fault_of, read_of, unwritten_of, write_of};
ghost use Rattle.intelhex.specs.Records;

use crate::digits::pair;
use crate::flags::{Clash, mark};
use crate::line::{Bytes, Record};
use crate::reader::Reader;
use crate::rows::put_rows;
use lines::print::put_word;

// Why a text is not read, and the line at fault.
#[derive(Clone, Copy, PartialEq, Eq, Debug)]
pub enum ReadError {
    WrongLength,
    BadRecord(usize),
    NamedTwice(usize),
    NoEnd(usize),
}

impl ReadError {
    // Its number.
    pub fn answer(self) -> u8
        ensures { result ≡ (fault_of self).answer }
    {
        match self {
            ReadError::WrongLength => 11,
            ReadError::BadRecord(_) => 20,
            ReadError::NamedTwice(_) => 21,
            ReadError::NoEnd(_) => 22,
        }
    }

    // The line at fault; 0 where there is none, as the printed line and C have it.
    pub fn line(self) -> usize
        ensures { result ≡ (fault_of self).line }
    {
        match self {
            ReadError::WrongLength => 0,
            ReadError::BadRecord(line) | ReadError::NamedTwice(line) | ReadError::NoEnd(line) =>
                line,
        }
    }
}

// Why an image is not written.
#[derive(Clone, Copy, PartialEq, Eq, Debug)]
pub enum WriteError {
    WrongLength,
    TooShort,
}

impl WriteError {
    // Its number.
    pub fn answer(self) -> u8
        ensures { result ≡ unwritten_of self }
    {
        match self {
            WriteError::WrongLength => 11,
            WriteError::TooShort => 31,
        }
    }
}

// Whether an image may have so many bytes.
fn groups(n: usize) -> bool
    ensures { result ≡ Dump.groups n }
{
    if n < 8192 || 65536 < n {
        return false;
    }
    n % 8192 == 0
}

// A record whose addresses can't be named.
fn at_line(clash: Clash, line: usize) -> ReadError
    ensures { fault_of result ≡ told (clash_of clash) line }
{
    match clash {
        Clash::Beyond => ReadError::BadRecord(line),
        Clash::Twice => ReadError::NamedTwice(line),
    }
}

// Whether the records are sound, line by line.
fn judge(text: &[u8], flags: &mut [u8]) -> Result<(), ReadError>
    ensures { read_of result ≡ Dump.judged flags.old 1 (Records.records text.now) }
{
    let mut records = Reader::new(text);
    let mut line = 1;
    while let Some(said) = records.next() {
        let Some(record) = said else {
            return Err(ReadError::BadRecord(line));
        };
        let bytes = match record {
            Record::Holds(bytes) => bytes,
            Record::End if records.left.is_empty() => return Ok(()),
            Record::End => return Err(ReadError::BadRecord(line + 1)),
        };
        let count = bytes.digits.len() / 2;
        if let Err(clash) = mark(flags, usize::from(bytes.address), count) {
            return Err(at_line(clash, line));
        }
        // Counted by hand: the end record asks `records.left`, which an `enumerate` over the reader would hold.
        line += 1;
    }
    Err(ReadError::NoEnd(line))
}

// The bytes of a record, each at its address. None lies past the image, since the record was judged: the test spares saying so.
fn put_bytes(bytes: Bytes<'_>, image: &mut [u8])
    ensures { image.new ≡ laid image.old bytes.entry.address (Records.pairs bytes.entry.digits.now) }
{
    let first = usize::from(bytes.address);
    for (i, digits) in bytes.digits.chunks_exact(2).enumerate() {
        let cell = first + i;
        if cell < image.len() {
            image[cell] = pair(digits, 0);
        }
    }
}

// The bytes of every record, each at its address.
fn fill(text: &[u8], image: &mut [u8])
    ensures { image.new ≡ Dump.filled image.old (Records.records text.now) }
{
    for said in Reader::new(text) {
        let Some(record) = said else { continue };
        match record {
            Record::Holds(bytes) => put_bytes(bytes, image),
            Record::End => {}
        }
    }
}

// Reads a text of records. The image serves as the flags of named addresses first, then it is filled.
pub fn read_hex(text: &[u8], image: &mut [u8]) -> Result<(), ReadError>
    ensures { Reads text image (read_of result) }
{
    if !groups(image.len()) {
        return Err(ReadError::WrongLength);
    }
    image.fill(0);
    let judged = judge(text, image);
    image.fill(0);
    if judged.is_ok() {
        fill(text, image);
    }
    judged
}

// Writes an image out: how many bytes of the output are the text.
#[tactic(auto, using(crate::proofs::Writing::groups_most))]
pub fn write_hex(image: &[u8], out: &mut [u8]) -> Result<usize, WriteError>
    ensures { Writes image out (write_of result) }
{
    let n = image.len();
    if !groups(n) {
        return Err(WriteError::WrongLength);
    }
    let need = n / 16 * 44 + 12;
    if out.len() < need {
        return Err(WriteError::TooShort);
    }
    let past = put_rows(image, out);
    let count = put_word(out, past, b":00000001FF\n");
    Ok(count)
}
