// The spelling of X's tokens: classes of bytes, runs and numerals, reserved words.
#![tactic(auto)]

pub mod kind;

ghost use Rattle.std.specs.Prelude.{◌≡◌, [], ◌∷◌, ◌+◌, ◌*◌, ◌≤◌, min, length, get_or, drop};
ghost use Rattle.x_spelling.specs.Characters.{one_of, in_class};
ghost use Rattle.x_spelling.specs.Characters as characters;
ghost use Rattle.x_spelling.specs.Words.{same};
ghost use Rattle.x_spelling.specs.Words as words;
ghost use Rattle.x_spelling.specs.WordLookup as lookup;

// The classes that runs of bytes are of: a name's, a comment's, the digits of a base.
#[derive(Clone, Copy)]
pub enum Class {
    Name,
    Comment,
    Digit(u64),
}

// What the bytes of a name stand for: the kind and the value of their token.
#[derive(Clone, Copy)]
pub struct Word {
    pub kind: u8,
    pub value: u32,
}

// The token of the reserved word that a name is, if it is one, and with how many of them it was compared in full.
#[derive(Clone, Copy)]
pub struct Lookup {
    pub found: Option<Word>,
    pub compared: u32,
}

// The word of `true`.
const TRUE: u32 = 0xffff_ffff;

pub fn one_of(set: &[u8], b: u8) -> bool
    ensures { result ≡ one_of set.now b }
{
    set.contains(&b)
}

pub fn letter(b: u8) -> bool
    ensures { result ≡ characters.letter b }
{
    b.is_ascii_alphabetic()
}

// Reckoned in bytes: the compiler then knows that a letter's value is 10 or more, and goes through a decimal number by one test a digit.
#[tactic(auto, unfolding(crate::specs::Characters::digit_value))]
pub fn digit_value(b: u8) -> u32
    ensures { result ≡ characters.digit_value b }
{
    match b {
        b'0'..=b'9' => (b - b'0') as u32,
        b'a'..=b'f' => (b - b'a' + 10) as u32,
        b'A'..=b'F' => (b - b'A' + 10) as u32,
        _ => 16,
    }
}

#[tactic(auto, unfolding(crate::specs::Characters::name_character))]
fn name_character(b: u8) -> bool
    ensures { result ≡ characters.name_character b }
{
    letter(b) || digit_value(b) < 10 || b == b'_'
}

#[tactic(auto, unfolding(crate::specs::Characters::character))]
fn character(b: u8) -> bool
    ensures { result ≡ characters.character b }
{
    letter(b) || digit_value(b) < 10 || one_of(b"!\"#&'()*+,-_./:;<=>?[]{}", b)
}

#[tactic(auto, unfolding(crate::specs::Characters::literal_character))]
pub fn literal_character(b: u8) -> bool
    ensures { result ≡ characters.literal_character b }
{
    !one_of(b"*'\"", b) && character(b)
}

fn in_class(class: Class, b: u8) -> bool
    ensures { result ≡ in_class class b }
{
    match class {
        Class::Name => name_character(b),
        Class::Comment => b != b'|',
        Class::Digit(base) => {
            let value = digit_value(b) as u64;
            value < base
        }
    }
}

// The byte at place i + k, 0 past the end.
pub fn byte(s: &[u8], i: usize, k: usize) -> u8
    ensures { result ≡ get_or (drop i s.now) k 0 }
{
    if i < s.len() && k < s.len() - i {
        s[i + k]
    } else {
        0
    }
}

// How many bytes of a class stand from i on.
pub fn span(s: &[u8], class: Class, i: usize) -> usize
    ensures { result ≡ characters.span class (drop i s.now) }
{
    for j in i..s.len() {
        if !in_class(class, s[j]) {
            return j - i;
        }
    }
    s.len().saturating_sub(i)
}

// The number that digits make with one more, cut off at 2^32.
fn pushed(base: u64, a: u64, digit: u32) -> u64
    requires { (base ≤ 16) × ((a ≤ 4294967296) × (digit ≤ 16)) }
    ensures { result ≡ min (a * base + digit) 4294967296 }
{
    (a * base + digit as u64).min(4294967296)
}

// The number that the digits from i on make, cut off at 2^32.
pub fn numeral(s: &[u8], base: u64, i: usize) -> u64
    requires { (1 ≤ base) × (base ≤ 16) }
    ensures { result ≡ min (characters.numeral base (drop i s.now) 0) 4294967296 }
{
    let mut a: u64 = 0;
    for j in i..s.len() {
        let digit = digit_value(s[j]);
        if (digit as u64) >= base {
            return a;
        }
        a = pushed(base, a, digit);
    }
    a
}

// A function, since tests/all/words.rs counts its calls (`every_comparison_is_counted`).
#[tactic(auto, using(crate::specs::Runs::same_pointwise))]
pub fn equal(a: &[u8], b: &[u8]) -> bool
    ensures { result ≡ same a.now b.now }
{
    a == b
}

fn is(kind: u8, value: u32) -> Word
    ensures { result ≡ words.is kind value }
{
    Word { kind, value }
}

fn looked(found: Option<Word>, compared: u32) -> Lookup
    ensures { result ≡ lookup.looked found compared }
{
    Lookup { found, compared }
}

// A name compared with one reserved word.
#[tactic(auto, unfolding(crate::specs::WordLookup::compare))]
fn only(w: &[u8], bytes: &[u8], token: Word) -> Lookup
    ensures { result ≡ lookup.compare (words.entry bytes.now token ∷ []) w.now 0 }
{
    if equal(w, bytes) {
        return looked(Some(token), 1);
    }
    looked(None, 1)
}

// A name compared with one reserved word and, if it isn't that, with another.
#[tactic(auto, unfolding(crate::specs::WordLookup::compare))]
fn pair(w: &[u8], bytes: &[u8], token: Word, bytes2: &[u8], token2: Word) -> Lookup
    ensures { result ≡ lookup.compare (words.entry bytes.now token ∷ words.entry bytes2.now token2 ∷ []) w.now 0 }
{
    if equal(w, bytes) {
        return looked(Some(token), 1);
    }
    if equal(w, bytes2) {
        return looked(Some(token2), 2);
    }
    looked(None, 2)
}

// The reserved words of two letters, by the first; then those of three to six.
#[tactic(auto, unfolding(crate::specs::WordLookup::candidates, crate::specs::Words::reserved, crate::specs::WordLookup::compare))]
fn of_two(w: &[u8]) -> Lookup
    ensures { result ≡ lookup.compare (lookup.candidates 2 (get_or w.now 0 0) words.reserved) w.now 0 }
{
    let first = byte(w, 0, 0);
    match first {
        b'd' => only(w, b"do", is(kind::DO, 0)),
        b'i' => pair(w, b"if", is(kind::IF, 0), b"is", is(kind::IS, 0)),
        b'o' => only(w, b"or", is(kind::OR, 0)),
        _ => looked(None, 0),
    }
}

#[tactic(auto, unfolding(crate::specs::WordLookup::candidates, crate::specs::Words::reserved, crate::specs::WordLookup::compare))]
fn of_three(w: &[u8]) -> Lookup
    ensures { result ≡ lookup.compare (lookup.candidates 3 (get_or w.now 0 0) words.reserved) w.now 0 }
{
    let first = byte(w, 0, 0);
    match first {
        b'a' => only(w, b"and", is(kind::AND, 0)),
        b'n' => only(w, b"not", is(kind::NOT, 0)),
        b'v' => pair(w, b"val", is(kind::VAL, 0), b"var", is(kind::VAR, 0)),
        b'x' => only(w, b"xor", is(kind::XOR, 0)),
        _ => looked(None, 0),
    }
}

#[tactic(auto, unfolding(crate::specs::WordLookup::candidates, crate::specs::Words::reserved, crate::specs::WordLookup::compare))]
fn of_four(w: &[u8]) -> Lookup
    ensures { result ≡ lookup.compare (lookup.candidates 4 (get_or w.now 0 0) words.reserved) w.now 0 }
{
    let first = byte(w, 0, 0);
    match first {
        b'e' => only(w, b"else", is(kind::ELSE, 0)),
        b'f' => only(w, b"func", is(kind::FUNC, 0)),
        b'p' => only(w, b"proc", is(kind::PROC, 0)),
        b's' => pair(w, b"skip", is(kind::SKIP, 0), b"stop", is(kind::STOP, 0)),
        b't' => pair(
            w,
            b"then",
            is(kind::THEN, 0),
            b"true",
            is(kind::NUMBER, TRUE),
        ),
        _ => looked(None, 0),
    }
}

#[tactic(auto, unfolding(crate::specs::WordLookup::candidates, crate::specs::Words::reserved, crate::specs::WordLookup::compare))]
fn of_five(w: &[u8]) -> Lookup
    ensures { result ≡ lookup.compare (lookup.candidates 5 (get_or w.now 0 0) words.reserved) w.now 0 }
{
    let first = byte(w, 0, 0);
    match first {
        b'a' => only(w, b"array", is(kind::ARRAY, 0)),
        b'f' => only(w, b"false", is(kind::NUMBER, 0)),
        b'v' => only(w, b"valof", is(kind::VALOF, 0)),
        b'w' => only(w, b"while", is(kind::WHILE, 0)),
        _ => looked(None, 0),
    }
}

#[tactic(auto, unfolding(crate::specs::WordLookup::candidates, crate::specs::Words::reserved, crate::specs::WordLookup::compare))]
fn of_six(w: &[u8]) -> Lookup
    ensures { result ≡ lookup.compare (lookup.candidates 6 (get_or w.now 0 0) words.reserved) w.now 0 }
{
    let first = byte(w, 0, 0);
    match first {
        b'r' => only(w, b"return", is(kind::RETURN, 0)),
        _ => looked(None, 0),
    }
}

// The reserved words of a name's length and first letter, up to the one that it is.
#[tactic(auto, unfolding(crate::specs::WordLookup::candidates, crate::specs::Words::reserved, crate::specs::WordLookup::compare))]
pub fn look_up(w: &[u8]) -> Lookup
    ensures { result ≡ lookup.look_up w.now }
{
    match w.len() {
        2 => of_two(w),
        3 => of_three(w),
        4 => of_four(w),
        5 => of_five(w),
        6 => of_six(w),
        _ => looked(None, 0),
    }
}

// The token of a name's bytes.
#[tactic(auto, using(crate::proofs::ReservedWordLaws::look_up_right))]
pub fn word_of(w: &[u8]) -> Word
    requires { length w.now ≤ 32 }
    ensures { result ≡ words.word w.now }
{
    look_up(w).found.unwrap_or(is(kind::NAME, w.len() as u32))
}
