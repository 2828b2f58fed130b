// 32-bit words: the helper functions that the machine's arithmetic is made of.
#![tactic(auto)]

ghost use Rattle.std.specs.Prelude.{◌≡◌, ◌-◌, ◌<◌, get_or, slice_index};
ghost use Rattle.arm_word.specs.Word as spec;
ghost use Rattle.arm_word.specs.Carry as carries;
ghost use Rattle.arm_word.specs.CarryLaws as laws;

// A sum with carry: its low word, the carry out, and whether the signed sum is out of range.
#[derive(Clone, Copy, PartialEq, Eq)]
pub struct Sum {
    pub word: u32,
    pub carry: bool,
    pub overflow: bool,
}

// The sum, wrapped.
pub fn add(a: u32, b: u32) -> u32
    ensures { result ≡ spec.add a b }
{
    a.wrapping_add(b)
}

// The difference, wrapped.
pub fn sub(a: u32, b: u32) -> u32
    ensures { result ≡ spec.sub a b }
{
    a.wrapping_sub(b)
}

// The product's low word.
pub fn low_product(a: u32, b: u32) -> u32
    ensures { result ≡ spec.mul a b }
{
    a.wrapping_mul(b)
}

// Every bit the other way.
pub fn complement(a: u32) -> u32
    ensures { result ≡ spec.complement a }
{
    !a
}

// A count above 31 gives 0.
pub fn shift_left(a: u32, n: u32) -> u32
    ensures { result ≡ spec.shift_left a n }
{
    if n < 32 { a << n } else { 0 }
}

pub fn shift_right(a: u32, n: u32) -> u32
    ensures { result ≡ spec.shift_right a n }
{
    if n < 32 { a >> n } else { 0 }
}

// A shift right that brings in copies of the sign.
pub fn shift_right_signed(a: u32, n: u32) -> u32
    ensures { result ≡ spec.shift_right_signed a n }
{
    if a < 0x8000_0000 {
        return shift_right(a, n);
    }
    complement(shift_right(complement(a), n))
}

pub fn differ(a: bool, b: bool) -> bool
    ensures { result ≡ carries.differ a b }
{
    a != b
}

fn bit(b: bool) -> u64
    ensures { (result ≡ carries.bit b) × (result < 2) }
{
    b as u64
}

// Both words have the sign that their sum hasn't.
fn signs_differ(x: u32, y: u32, word: u32) -> bool
    ensures { result ≡ laws.signs_differ x y word }
{
    let negative = word >= 0x8000_0000;
    if differ(x >= 0x8000_0000, negative) {
        return differ(y >= 0x8000_0000, negative);
    }
    false
}

// The manual's AddWithCarry.
pub fn with_carry(x: u32, y: u32, carry: bool) -> Sum
    ensures { result ≡ carries.with_carry x y carry }
{
    let total = (x as u64) + (y as u64) + bit(carry);
    let word = (total % 0x1_0000_0000) as u32;
    Sum {
        word,
        carry: total >= 0x1_0000_0000,
        overflow: signs_differ(x, y, word),
    }
}

fn one_less(n: u32) -> u32
    ensures { result ≡ n - 1 }
{
    n.saturating_sub(1)
}

// The last bit out of a shift by n places, n not 0.
pub fn last_left(x: u32, n: u32) -> bool
    ensures { result ≡ carries.last_left x n }
{
    shift_left(x, one_less(n)) >= 0x8000_0000
}

pub fn last_right(x: u32, n: u32) -> bool
    ensures { result ≡ carries.last_right x n }
{
    shift_right(x, one_less(n)) % 2 == 1
}

// Entry i of a slice, `past` behind its end.
pub fn entry_or<T: Copy>(entries: &[T], i: usize, past: T) -> T
    ensures { result ≡ get_or entries.now i past }
{
    entries.get(i).copied().unwrap_or(past)
}

// Word i of a slice, 0 past its end.
pub fn word_at(words: &[u32], i: usize) -> u32
    ensures { result ≡ slice_index words.now i }
{
    entry_or(words, i, 0)
}
