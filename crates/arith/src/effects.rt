// What an instruction stores, as a function of its operands' values.
ghost use Rattle.std.specs.Prelude.{◌≡◌, ◌<◌};
ghost use Rattle.rules.specs.Arithmetic;
ghost use Rattle.rules.specs.Arithmetic.{half, span, one_effect, two_effect};
ghost use Rattle.arith.specs.Meaning.{one_of, two_of, effect_of};

use number::{shifts, sums};

#[derive(Clone, Copy)]
pub enum One {
    Abs,
    Neg,
    Inv,
    Clr,
    Cz,
    Inc,
    Dec,
    Inct,
    Dect,
}

#[derive(Clone, Copy)]
pub enum Two {
    Add,
    Sub,
    And,
    Or,
    Xor,
    St,
    Ch,
    Che,
    Cgt,
    Cge,
    Ceq,
    Clog,
    Sra,
    Sll,
    Srl,
    Src,
}

// Status and result; a result only; a status only; the condition bit alone.
#[derive(Clone, Copy)]
pub enum Effect {
    Both(u8, u16),
    Only(u16),
    Flags(u8),
    Condition(bool),
}

// A sum, with its status.
fn added(wide: bool, a: u16, b: u16) -> Effect
    ensures { effect_of result ≡ Arithmetic.added wide a b }
{
    let status = sums::sum_status(wide, a, b);
    let result = sums::sum(wide, a, b);
    Effect::Both(status, result)
}

// The two's complement added, not the number taken: the carry differs.
fn subtracted(wide: bool, a: u16, b: u16) -> Effect
    requires { b < span (half wide) }
    ensures { effect_of result ≡ Arithmetic.added wide a (Arithmetic.complement (half wide) b) }
{
    added(wide, a, sums::complement(wide, b))
}

// A number, with its status against 0.
fn logical(wide: bool, res: u16) -> Effect
    ensures { effect_of result ≡ Arithmetic.logical (half wide) res }
{
    let status = sums::compared(wide, res, 0, false, false);
    Effect::Both(status, res)
}

#[tactic(auto, using(crate::proofs::Laws::two_below), unfolding(rules::specs::Arithmetic::one_effect))]
pub fn one_effect(op: One, wide: bool, v: u16) -> Effect
    requires { v < span (half wide) }
    ensures { effect_of result ≡ one_effect (one_of op) wide v }
{
    match op {
        One::Abs => Effect::Only(sums::absolute(wide, v)),
        One::Neg => Effect::Only(sums::complement(wide, v)),
        One::Inv => Effect::Only(sums::inverse(wide, v)),
        One::Clr => Effect::Only(0),
        One::Cz => Effect::Flags(sums::compared(wide, v, 0, false, false)),
        One::Inc => added(wide, v, 1),
        One::Dec => subtracted(wide, v, 1),
        One::Inct => added(wide, v, 2),
        One::Dect => subtracted(wide, v, 2),
    }
}

// a is the destination's value, b the source's.
#[tactic(auto, unfolding(rules::specs::Arithmetic::two_effect))]
pub fn two_effect(op: Two, wide: bool, a: u16, b: u16) -> Effect
    requires { (a < span (half wide)) × (b < span (half wide)) }
    ensures { effect_of result ≡ two_effect (two_of op) wide a b }
{
    let n = shifts::shift_count(b);
    match op {
        Two::Add => added(wide, a, b),
        Two::Sub => subtracted(wide, a, b),
        Two::And => logical(wide, a & b),
        Two::Or => logical(wide, a | b),
        Two::Xor => logical(wide, a ^ b),
        Two::St => Effect::Only(b),
        Two::Ch => Effect::Condition(b < a),
        Two::Che => Effect::Condition(b <= a),
        Two::Cgt => Effect::Condition(sums::above(wide, a, b)),
        Two::Cge => Effect::Condition(sums::at_least(wide, a, b)),
        Two::Ceq => Effect::Flags(sums::compared(wide, a, b, false, false)),
        Two::Clog => Effect::Condition((a & b) == 0),
        Two::Sra => Effect::Only(shifts::arithmetic(sums::extended(wide, a), n)),
        Two::Sll => Effect::Only(shifts::leftward(sums::extended(wide, a), n)),
        Two::Srl => Effect::Only(shifts::rightward(a, n)),
        Two::Src => Effect::Only(shifts::circular(shifts::repeated(wide, a), n)),
    }
}
