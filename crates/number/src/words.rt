// Words of two bytes, and the journal's words, made and taken apart by shifts and masks.
ghost use Rattle.std.specs.Prelude.{◌≡◌, ◌+◌, ◌*◌, ◌/◌, ◌%◌, ◌^◌, ◌<◌};
ghost use Rattle.rules.specs.Machine.{joined, high_byte, low_byte, flagged};
ghost use Rattle.rules.specs.Journal.{mark_word, marks};

// A word of its high byte and its low one.
pub fn word_of(high: u8, low: u8) -> u16
    ensures { result ≡ joined high low }
{
    u16::from_be_bytes([high, low])
}

pub fn high_of(w: u16) -> u8
    ensures { result ≡ high_byte w }
{
    (w >> 8) as u8
}

pub fn low_of(w: u16) -> u8
    ensures { result ≡ low_byte w }
{
    (w & 255) as u8
}

// The journal word of a store.
pub fn pack(kind: u32, at: u32, b: u8) -> u32
    requires { (kind < 8) × (at < 2 ^ 21) }
    ensures { result ≡ kind * 2 ^ 29 + at * 256 + b }
{
    (kind << 29) | ((at << 8) | (b as u32))
}

// The journal word of a mark: the program address, and the source flag above it.
pub fn mark_of(pc: u16, source: bool) -> u32
    ensures { result ≡ mark_word (flagged pc source) }
{
    if source {
        return 0x6001_0000 | (pc as u32);
    }
    0x6000_0000 | (pc as u32)
}

// A journal word's kind.
pub fn kind_of(w: u32) -> u32
    ensures { result ≡ w / 2 ^ 29 }
{
    w >> 29
}

// Whether it is a mark.
pub fn is_mark(w: u32) -> bool
    ensures { result ≡ marks w }
{
    kind_of(w) == 3
}

// The 29 bits under it.
pub fn under_kind(w: u32) -> u32
    ensures { result ≡ w % 2 ^ 29 }
{
    w & 0x1FFF_FFFF
}

// The address among them.
pub fn cell_of(w: u32) -> u32
    ensures { result ≡ w % 2 ^ 29 / 256 }
{
    (w & 0x1FFF_FFFF) >> 8
}

// The byte that stood there.
pub fn byte_of(w: u32) -> u8
    ensures { result ≡ w % 2 ^ 29 % 256 }
{
    (w & 255) as u8
}
