// The bits of an opcode or of an operand's first byte, by shifts and masks.
ghost use Rattle.std.specs.Prelude.{◌≡◌, ◌%◌, ◌<◌};
ghost use Rattle.rules.specs.Machine;

// Bit n, counted from the right.
pub fn bit(n: u32, b: u8) -> bool
    requires { n < 8 }
    ensures { result ≡ Machine.bit n b }
{
    let shifted = (b as u32) >> n;
    let last = shifted & 1;
    last == 1
}

// The low four bits.
pub fn nibble(b: u8) -> u8
    ensures { result ≡ b % 16 }
{
    b & 15
}
