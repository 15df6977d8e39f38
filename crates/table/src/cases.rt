// One case: lines that set the machine, a run, and lines that say all that it must leave.
use crate::fields;
use bench::answers;
use bench::runs::Report;
use desk::obey::BadLine;
use desk::show::ROOM;
use desk::state::Machine;
use desk::{obey, state};
use lines::read::Line;
use lines::{print, read};

// How far fields were obeyed: up to a run of so many steps, and the fields past it; or to the end, where one may have been the answer line.
#[derive(Clone, Copy)]
enum Course<'a> {
    Run { steps: u32, rest: &'a [u8] },
    End { answered: bool },
}

// Each field obeyed, up to a run: what it prints is of no use here. A field that is the answer line is none to obey.
fn obey_fields<'a>(
    fields: &'a [u8],
    answer: &[u8],
    text: &mut [u8],
    machine: &mut Machine,
) -> Result<Course<'a>, BadLine> {
    let mut out = [0u8; ROOM];
    let mut rest = fields;
    let mut answered = false;
    while let Some((field, next)) = fields::split_field(rest) {
        rest = next;
        let line = fields::as_line(field, text);
        if line == answer {
            answered = true;
            continue;
        }
        if let Some(Line::Run(steps)) = read::read_line(line) {
            return Ok(Course::Run { steps, rest });
        }
        obey::obey(line, 0, machine, &mut out)?;
    }
    Ok(Course::End { answered })
}

// Whether the fields after a run have its answer line; the others set the machine that is wanted.
fn answer_said(fields: &[u8], text: &mut [u8], wanted: &mut Machine, r: Report) -> bool {
    let mut line = [0u8; 80];
    let number = answers::number(r.refusal);
    let address = answers::address(r.refusal);
    let count = print::put_answer(&mut line, 0, number, r.steps, r.stores, address);
    let answer = &line[..count.saturating_sub(1)];
    let course = obey_fields(fields, answer, text, wanted);
    matches!(course, Ok(Course::End { answered: true }))
}

// Whether a case holds, on a machine of its own: its first two fields are words, and after the run pc and every cell is as it is wanted.
pub(crate) fn holds(case: &[u8], text: &mut [u8]) -> bool {
    let mut machine = Machine::new();
    let course = obey_fields(fields::past(case, 2), b"", text, &mut machine);
    let Ok(Course::Run { steps, rest }) = course else {
        return false;
    };
    let mut wanted = machine;
    wanted.at = state::first();
    let report = machine.run(steps);
    answer_said(rest, text, &mut wanted, report)
        && machine.at.pc == wanted.at.pc
        && machine.image == wanted.image
        && machine.cells == wanted.cells
}
