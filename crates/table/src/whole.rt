// A table judged, case by case. An empty line, or one that begins with #, is no case.
ghost use Rattle.std.specs.Prelude.{◌-◌, ◌≤◌, length, IfOk};
ghost use Rattle.desk.specs.Desk.{longest};

use crate::{cases, fields};
use desk::input;
use desk::input::{LONGEST, PIECE};
use desk::pending::Pending;
use std::io;
use std::io::{Read, Write};

// A case's first field, after `ok` or `differs`.
fn judge<W: Write>(output: &mut W, case: &[u8], text: &mut [u8]) -> io::Result<()> {
    if case.starts_with(b"#") {
        return Ok(());
    }
    let Some((section, _)) = fields::split_field(case) else {
        return Ok(());
    };
    if cases::holds(case, text) {
        output.write_all(b"ok\t")?;
    } else {
        output.write_all(b"differs\t")?;
    }
    output.write_all(section)?;
    output.write_all(b"\n")
}

// Each whole line judged; the answer is where one that is not whole begins.
fn judge_lines<W: Write>(
    output: &mut W,
    lines: &[u8],
    ended: bool,
    text: &mut [u8],
) -> io::Result<usize>
    ensures { IfOk result (λ at. (at ≤ length lines.now) × (length lines.now - at ≤ longest)) }
{
    let mut at = 0;
    while let Some(line) = input::line_at(lines, at, ended) {
        judge(output, &lines[at..line.end], text)?;
        at = line.next;
    }
    Ok(at)
}

fn judge_input<R: Read, W: Write>(
    input: &mut R,
    output: &mut W,
    pending: &mut Pending<PIECE>,
    text: &mut [u8],
) -> io::Result<()>
    requires { length pending.old ≤ longest }
{
    for _ in 0..u64::MAX {
        let ended = pending.refill(input)? == 0;
        let judged = judge_lines(output, pending.bytes(), ended, text)?;
        pending.pass(judged);
        if ended {
            return Ok(());
        }
    }
    Ok(())
}

// The error is that of a read or a write that failed.
pub fn run_table<R: Read, W: Write>(input: &mut R, output: &mut W) -> io::Result<()> {
    let mut pending = Pending::new();
    let mut text = [0u8; LONGEST];
    judge_input(input, output, &mut pending, &mut text)
}
