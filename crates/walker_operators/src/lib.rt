// The operators of a syntax table, worked out on words.
#![tactic(auto)]

ghost use Rattle.std.specs.Prelude.{◌≡◌};
ghost use Rattle.arm_word.specs.Word as word;
ghost use Rattle.x_program.specs.Table.{monadic_of, diadic_of};
ghost use Rattle.x_meaning.specs.Operators.{work_monadic, work_diadic};

use arm_word::{add, complement, low_product, shift_left, shift_right, sub};
use x_program::operator;

// 2^31: added to two words, it turns their signed order into the unsigned one.
const SIGN: u32 = 0x8000_0000;

const TRUE: u32 = 0xFFFF_FFFF;

// The monadic operator of number o.
pub fn monadic(o: u32, x: u32) -> u32
    ensures { result ≡ work_monadic (monadic_of o) x }
{
    match o {
        operator::NEGATE => sub(0, x),
        _ => complement(x),
    }
}

fn truth(b: bool) -> u32
    ensures { result ≡ word.truth b }
{
    if b { TRUE } else { 0 }
}

// The order of the words as signed numbers.
#[tactic(auto, unfolding(arm_word::specs::Word::signed_less))]
fn less(x: u32, y: u32) -> bool
    ensures { result ≡ word.signed_less x y }
{
    add(x, SIGN) < add(y, SIGN)
}

// The diadic operator of number o.
pub fn diadic(o: u32, x: u32, y: u32) -> u32
    ensures { result ≡ work_diadic (diadic_of o) x y }
{
    match o {
        operator::PLUS => add(x, y),
        operator::MINUS => sub(x, y),
        operator::TIMES => low_product(x, y),
        operator::AND => x & y,
        operator::OR => x | y,
        operator::XOR => x ^ y,
        operator::SHIFT_RIGHT => shift_right(x, y),
        operator::SHIFT_LEFT => shift_left(x, y),
        operator::EQUAL => truth(x == y),
        operator::UNEQUAL => truth(x != y),
        operator::LESS => truth(less(x, y)),
        operator::AT_MOST => truth(!less(y, x)),
        operator::GREATER => truth(less(y, x)),
        _ => truth(!less(x, y)),
    }
}
