// What is shown of a machine that had only its subroutine stack set.
use crate::trial::fresh;
use bench::answers;
use bench::at::At;
use bench::runs::Report;
use desk::show::{ROOM, put_run, write_text};
use desk::state::Cells;
use lines::parts::Part;
use lines::print;
use std::io;
use std::io::Write;

// A run, and what it leaves of pad, VDP RAM and registers.
pub(crate) fn show_run<W: Write>(output: &mut W, r: Report, cells: &Cells) -> io::Result<()> {
    let mut out = [0; ROOM];
    let count = put_run(&mut out, r, &fresh(), cells);
    write_text(output, &out, count)
}

// A run's answer and where it ends, in one write.
pub(crate) fn show_answer<W: Write>(output: &mut W, r: Report) -> io::Result<()> {
    let mut out = [0; 83];
    let answer = answers::number(r.refusal);
    let address = answers::address(r.refusal);
    let a = print::put_answer(&mut out, 0, answer, r.steps, r.stores, address);
    let b = print::put_pc(&mut out, a, r.at.pc);
    write_text(output, &out, b)
}

// A number, after its name.
pub(crate) fn show_number<W: Write>(output: &mut W, name: &[u8], n: usize) -> io::Result<()> {
    let mut out = [0; 21];
    let a = print::put_decimal(&mut out, 0, n as u64);
    let b = print::put_word(&mut out, a, b"\n");
    output.write_all(name)?;
    write_text(output, &out, b)
}

// How many words are kept, and where the oldest is.
pub(crate) fn show_kept<W: Write>(output: &mut W, at: At) -> io::Result<()> {
    show_number(output, b"used\t", at.used)?;
    show_number(output, b"place\t", at.place)
}

fn show_grom<W: Write>(output: &mut W, at: u16, byte: u8) -> io::Result<()> {
    let mut out = [0; 13];
    let count = print::put_cell(&mut out, 0, Part::Grom, at, byte);
    write_text(output, &out, count)
}

// Each byte of an image that is not as it was.
pub(crate) fn show_groms<W: Write>(output: &mut W, was: &[u8], is: &[u8]) -> io::Result<()> {
    for (at, (old, new)) in (0..=u16::MAX).zip(was.iter().zip(is)) {
        if old != new {
            show_grom(output, at, *new)?;
        }
    }
    Ok(())
}

fn show_word<W: Write>(output: &mut W, word: u32) -> io::Result<()> {
    let mut out = [0; 8];
    print::put_digits(&mut out, 0, 16, 8, u64::from(word));
    output.write_all(b"word\t")?;
    output.write_all(&out)?;
    output.write_all(b"\n")
}

// Each word of the journal that is not 0.
pub(crate) fn show_words<W: Write>(output: &mut W, journal: &[u32]) -> io::Result<()> {
    for word in journal.iter().filter(|word| **word != 0) {
        show_word(output, *word)?;
    }
    Ok(())
}

// Each word of the journal.
pub(crate) fn show_journal<W: Write>(output: &mut W, journal: &[u32]) -> io::Result<()> {
    for word in journal {
        show_word(output, *word)?;
    }
    Ok(())
}
