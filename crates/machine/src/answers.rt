// The refusals, once, in 01's order and words, 4, 5 and 6 with the address that was turned down; and their numbers. 0 is "done".
// 02, of 9: "don't use the number again".
ghost use Rattle.std.specs.Prelude.{◌≡◌, true, Ok, Err, cond, IfOk};
ghost use Rattle.rules.specs.Answers;
ghost use Rattle.machine.specs.Meaning.{why_of};

#[derive(Clone, Copy)]
pub enum Why {
    // "ended: opcode >0B (EXIT); nothing changes, pc stays on it"
    Ended,
    // "no such instruction"
    NoSuch,
    // "needs the host: >03, >0F, >F4 to >F7"
    NeedsHost,
    // "CPU offset above >DF, or a format operand decoded to a VDP cell"
    OffCpu(u16),
    // "VDP address above >3FFF"
    OffVdp(u16),
    // "GROM address beyond the image"
    OffGrom(u16),
    // "stack pointer out of its area"
    OffStack,
    // "a 16,385th format code in one FMT, before it is read"
    TooLong,
    // "no journal word left"
    NoRoom,
    // "a lent part has a wrong length, or used exceeds the journal"
    WrongLength,
    // "step-back finds no sound record"
    NoRecord,
    // "VDP register above 7"
    OffRegister,
    // 02, item 3: "granularity above 7"
    TooCoarse,
    // 02, item 9: "group not writable"
    ReadOnly,
    // 02, item 10: "output full"
    OutputFull,
}

impl Why {
    pub fn number(self) -> u8
        ensures { result ≡ Answers.number (why_of self) }
    {
        match self {
            Why::Ended => 1,
            Why::NoSuch => 2,
            Why::NeedsHost => 3,
            Why::OffCpu(_) => 4,
            Why::OffVdp(_) => 5,
            Why::OffGrom(_) => 6,
            Why::OffStack => 7,
            Why::TooLong => 8,
            Why::NoRoom => 10,
            Why::WrongLength => 11,
            Why::NoRecord => 12,
            Why::OffRegister => 13,
            Why::TooCoarse => 23,
            Why::ReadOnly => 24,
            Why::OutputFull => 26,
        }
    }

    // The address that was turned down, or 0.
    pub fn address(self) -> u16
        ensures { result ≡ Answers.address (why_of self) }
    {
        match self {
            Why::OffCpu(a) | Why::OffVdp(a) | Why::OffGrom(a) => a,
            _ => 0,
        }
    }
}

// A refusal, unless a test holds.
pub fn need(holds: bool, why: Why) -> Result<(), Why>
    ensures is { result ≡ cond holds (Ok tt) (Err why) }
    ensures met { IfOk result (λ _. holds ≡ true) }
{
    if holds { Ok(()) } else { Err(why) }
}
