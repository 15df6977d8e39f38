// The answer of a call in numbers, as C and the printed lines have it: None is "done".
ghost use Rattle.std.specs.Prelude.{◌≡◌};
ghost use Rattle.bench.specs.Numbers.{answer_of};

use machine::answers::Why;

pub fn number(refusal: Option<Why>) -> u8
    ensures { result ≡ (answer_of refusal).number }
{
    match refusal {
        Some(why) => why.number(),
        None => 0,
    }
}

// The address that was turned down, or 0.
pub fn address(refusal: Option<Why>) -> u16
    ensures { result ≡ (answer_of refusal).address }
{
    match refusal {
        Some(why) => why.address(),
        None => 0,
    }
}
