// The machine's sizes and the pad's cells, once, in 01's order and words.

// "CPU RAM ("pad", >8300 up) | 256 bytes; a program may reach offsets >00 to >DF"
pub const PAD_SIZE: usize = 256;

pub const PAD_REACH: usize = 0xE0;

// "VDP RAM | 16,384 bytes": a program may reach them all
pub const VDP_REACH: usize = 16384;

// "VDP registers | 8 bytes"
pub const REGISTERS: usize = 8;

// ">72 data stack pointer"
pub const DATA_POINTER: usize = 0x72;

// ">73 subroutine stack pointer"
pub const SUB_POINTER: usize = 0x73;

// ">78 random number"
pub const RANDOM_NUMBER: usize = 0x78;

// ">7C status"
pub const STATUS: usize = 0x7C;

// ">7D character buffer"
pub const BUFFER: usize = 0x7D;

// ">7E row (YPT)"
pub const ROW: usize = 0x7E;

// ">7F column (XPT)"
pub const COLUMN: usize = 0x7F;

// ">C0 and >C1 random seed"
pub const SEED: usize = 0xC0;

// 02, item 10: "the pad word at the destination goes to >CC": the address of a sound list
pub const LIST: usize = 0xCC;

// "then 1 to >CE": its count of ticks
pub const COUNT: usize = 0xCE;

// ">D4 copy of VDP register 1"
pub const REGISTER_COPY: usize = 0xD4;
