// The table: two limits, two sizes, and the bits.
ghost use Rattle.std.specs.Prelude.{◌<◌};
ghost use Rattle.rules.specs.Coincidence;
ghost use Rattle.rules.specs.Coincidence.{table_byte, table_bit, in_table};
ghost use Rattle.machine.specs.Meaning.{Does, Unwritten};

use machine::answers::Why;
use machine::memory::Memory;
use machine::state::Machine;
use number::{addresses, coincidence, words};

// Byte k of the table at t.
#[tactic(auto, using(machine::proofs::Laws::steps), unfolding(rules::specs::Coincidence::table_byte))]
fn table_byte(m: &mut Machine<'_>, t: u16, k: u16) -> Result<u8, Why>
    ensures does { Does (table_byte t k) m result }
    ensures words { Unwritten m }
{
    m.load(Memory::Grom, addresses::plus(t, k) as usize)
}

// Its bit n, counted from the left.
#[tactic(auto, using(machine::proofs::Laws::steps), unfolding(rules::specs::Coincidence::table_bit))]
fn table_bit(m: &mut Machine<'_>, t: u16, n: u16) -> Result<bool, Why>
    ensures does { Does (table_bit t n) m result }
    ensures words { Unwritten m }
{
    let b = table_byte(m, t, 4 + n / 8)?;
    Ok(coincidence::bit_of(n, b))
}

// The bit inside the table; outside there is none to read.
#[tactic(auto, using(machine::proofs::Laws::choosing), unfolding(rules::specs::Coincidence::meets))]
fn meets(m: &mut Machine<'_>, t: u16, rows: u8, columns: u8, y: i16, x: i16) -> Result<bool, Why>
    ensures does { Does (Coincidence.meets t rows columns y x) m result }
    ensures words { Unwritten m }
{
    if coincidence::inside(y, rows) && coincidence::inside(x, columns) {
        let n = coincidence::bit_number(columns, y as u8, x as u8);
        table_bit(m, t, n)
    } else {
        Ok(false)
    }
}

// By the granularity g and the pairs a of the destination and b of the source: whether the objects meet.
#[tactic(auto, using(machine::proofs::Laws::steps), unfolding(rules::specs::Coincidence::in_table))]
pub fn in_table(m: &mut Machine<'_>, t: u16, g: u16, a: u16, b: u16) -> Result<bool, Why>
    requires { g < 8 }
    ensures does { Does (in_table t g a b) m result }
    ensures words { Unwritten m }
{
    let rows = table_byte(m, t, 0)?;
    let columns = table_byte(m, t, 1)?;
    let v = table_byte(m, t, 2)?;
    let h = table_byte(m, t, 3)?;
    let y = coincidence::along(g, words::high_of(b), words::high_of(a), v);
    let x = coincidence::along(g, words::low_of(b), words::low_of(a), h);
    meets(m, t, rows, columns, y, x)
}
