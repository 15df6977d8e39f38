// What a run prints, put together and written.
ghost use Rattle.std.specs.Prelude.{◌≤◌, length, take, OnOk};
ghost use Rattle.std.specs.Io.KnownBytes.{Appends};
ghost use Rattle.lines.specs.Shown.{Front};
ghost use Rattle.desk.specs.Meaning.{report_text};

use crate::state::Cells;
use bench::answers;
use bench::runs::Report;
use lines::parts::Part;
use lines::print;
use std::io;
use std::io::Write;

// Room for all that a run prints: 83 bytes for two lines, 13 for each cell.
pub const ROOM: usize = 216507;

// Its answer, its pc, and each cell that it changed; `was` are the cells before it.
pub fn put_run(out: &mut [u8; ROOM], r: Report, was: &Cells, is: &Cells) -> usize
    ensures { Front (report_text r was.now is.now) out.new result }
{
    let answer = answers::number(r.refusal);
    let a = print::put_answer(
        out,
        0,
        answer,
        r.steps,
        r.stores,
        answers::address(r.refusal),
    );
    let b = print::put_pc(out, a, r.at.pc);
    let c = print::put_changed(out, b, Part::Pad, &was.pad, &is.pad);
    let d = print::put_changed(out, c, Part::Vdp, &was.vram, &is.vram);
    print::put_changed(out, d, Part::Reg, &was.regs, &is.regs)
}

// The first `count` bytes of a text, written.
pub fn write_text<W: Write>(output: &mut W, text: &[u8], count: usize) -> io::Result<()>
    requires { count ≤ length text.now }
    ensures { OnOk result (Appends (W.contents output.old) (W.contents output.new) (take count text.now)) }
{
    output.write_all(&text[..count])
}
