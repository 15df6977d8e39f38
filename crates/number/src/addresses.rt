// Program addresses, and sums modulo 65,536.
ghost use Rattle.std.specs.Prelude.{◌≡◌, ◌+◌, ◌*◌, ◌%◌};
ghost use Rattle.rules.specs.Machine;
ghost use Rattle.rules.specs.Machine.{group};
ghost use Rattle.rules.specs.Instructions.{in_group};

// pc moved on: the low 13 bits count and wrap.
pub fn onward(pc: u16) -> u16
    ensures { result ≡ Machine.onward pc }
{
    (pc / 8192) * 8192 + (pc % 8192 + 1) % 8192
}

// An address within the group of pc.
pub fn in_group(pc: u16, a: u16) -> u16
    ensures { result ≡ in_group pc a }
{
    (pc / 8192) * 8192 + a % 8192
}

// An index word or a MOVE's count added, or CASE's value.
pub fn plus(a: u16, b: u16) -> u16
    ensures { result ≡ (a + b) % 65536 }
{
    a.wrapping_add(b)
}

// Where CASE goes: twice the value further on, within the group.
pub fn case_target(pc: u16, v: u16) -> u16
    ensures { result ≡ in_group pc (pc % group + 2 * v) }
{
    in_group(pc, plus(pc, plus(v, v)))
}
