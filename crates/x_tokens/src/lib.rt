// The tokens of X: a source's bytes to token arrays, or the refusal among 1 to 5.
#![tactic(auto)]

pub mod refusal;

ghost use Rattle.std.specs.Prelude.{◌≡◌, ◌<◌, ◌≤◌, length, drop};
ghost use Rattle.x_tokens.specs.Lexemes as lexemes;
ghost use Rattle.x_tokens.specs.Lexemes.{unless_zero};
ghost use Rattle.x_tokens.specs.TokenList.{outcome, answer, Few};

use crate::refusal::{Reason, Refusal};
use x_spelling::{
    Class, byte, digit_value, kind, letter, literal_character, numeral, one_of, span, word_of,
};

// The tokens of a source: their kinds, places and values.
#[derive(Clone, Copy)]
pub struct TokenArrays<'a> {
    pub kinds: &'a [u8],
    pub places: &'a [u32],
    pub values: &'a [u32],
}

// What stands at the front: a separator, a token (kind, length, value), or why there is none.
#[derive(Clone, Copy)]
pub enum Lexeme {
    Separator,
    Token(u8, usize, u32),
    Broken(Reason),
}

#[tactic(auto, unfolding(crate::specs::Lexemes::named))]
fn named(s: &[u8], i: usize) -> Lexeme
    requires { i ≤ length s.now }
    ensures { result ≡ lexemes.named (drop i s.now) }
{
    let n = span(s, Class::Name, i);
    if n <= 32 {
        let end = i + n;
        let found = word_of(&s[i..end]);
        Lexeme::Token(found.kind, n, found.value)
    } else {
        Lexeme::Broken(Reason::LongName)
    }
}

// A number whose digits stand from i on, after `before` bytes of its own.
#[tactic(auto, unfolding(crate::specs::Lexemes::number))]
fn number(s: &[u8], base: u64, limit: u32, before: usize, i: usize) -> Lexeme
    requires { (1 ≤ base) × ((base ≤ 16) × (before ≤ 1)) }
    ensures { result ≡ lexemes.number base limit before (drop i s.now) }
{
    let n = span(s, Class::Digit(base), i);
    if n == 0 {
        return Lexeme::Broken(Reason::BrokenToken);
    }
    let value = numeral(s, base, i);
    if value <= limit as u64 {
        return Lexeme::Token(kind::NUMBER, before + n, value as u32);
    }
    Lexeme::Broken(Reason::LargeNumber)
}

#[tactic(auto, unfolding(crate::specs::Lexemes::escape_value))]
fn escape_value(b: u8) -> Option<u8>
    ensures { result ≡ unless_zero (lexemes.escape_value b) }
{
    match b {
        b'c' => Some(13),
        b'n' => Some(10),
        b't' => Some(9),
        b's' => Some(32),
        b'\'' => Some(39),
        b'"' => Some(34),
        b'*' => Some(42),
        _ => None,
    }
}

#[tactic(auto, unfolding(crate::specs::Lexemes::closed))]
fn closed(s: &[u8], i: usize, n: usize, value: u32) -> Lexeme
    requires { n ≤ 5 }
    ensures { result ≡ lexemes.closed (drop i s.now) n value }
{
    if byte(s, i, n) == b'\'' {
        return Lexeme::Token(kind::NUMBER, n + 1, value);
    }
    Lexeme::Broken(Reason::BrokenToken)
}

#[tactic(auto, unfolding(crate::specs::Lexemes::hexadecimal_escape))]
fn hexadecimal_escape(s: &[u8], i: usize) -> Lexeme
    ensures { result ≡ lexemes.hexadecimal_escape (drop i s.now) }
{
    let high = digit_value(byte(s, i, 3));
    if high < 16 {
        let low = digit_value(byte(s, i, 4));
        if low < 16 {
            return closed(s, i, 5, high * 16 + low);
        }
        return Lexeme::Broken(Reason::BrokenToken);
    }
    Lexeme::Broken(Reason::BrokenToken)
}

#[tactic(auto, unfolding(crate::specs::Lexemes::escape))]
fn escape(s: &[u8], i: usize) -> Lexeme
    ensures { result ≡ lexemes.escape (drop i s.now) }
{
    let b = byte(s, i, 2);
    if b == b'#' {
        return hexadecimal_escape(s, i);
    }
    match escape_value(b) {
        Some(value) => closed(s, i, 3, value as u32),
        None => Lexeme::Broken(Reason::BrokenToken),
    }
}

#[tactic(auto, unfolding(crate::specs::Lexemes::byte_literal))]
fn byte_literal(s: &[u8], i: usize) -> Lexeme
    ensures { result ≡ lexemes.byte_literal (drop i s.now) }
{
    let b = byte(s, i, 1);
    if b == b'*' {
        return escape(s, i);
    }
    if literal_character(b) {
        return closed(s, i, 2, b as u32);
    }
    Lexeme::Broken(Reason::BrokenToken)
}

#[tactic(auto, unfolding(crate::specs::Lexemes::comment))]
fn comment(s: &[u8], i: usize) -> Lexeme
    requires { length s.now ≤ 16384 }
    ensures { result ≡ lexemes.comment (drop i s.now) }
{
    let n = span(s, Class::Comment, i);
    if byte(s, i, n) == b'|' {
        return Lexeme::Token(kind::COMMENT, n + 2, 0);
    }
    Lexeme::Broken(Reason::BrokenToken)
}

#[tactic(auto, unfolding(crate::specs::Lexemes::double))]
fn double(b: u8, c: u8) -> Option<u8>
    ensures { result ≡ unless_zero (lexemes.double b c) }
{
    match (b, c) {
        (b':', b'=') => Some(kind::BECOMES),
        (b'<', b'>') => Some(kind::UNEQUAL),
        (b'<', b'=') => Some(kind::AT_MOST),
        (b'<', b'<') => Some(kind::SHIFT_LEFT),
        (b'>', b'=') => Some(kind::AT_LEAST),
        (b'>', b'>') => Some(kind::SHIFT_RIGHT),
        _ => None,
    }
}

#[tactic(auto, unfolding(crate::specs::Lexemes::single))]
fn single(b: u8) -> Option<u8>
    ensures { result ≡ unless_zero (lexemes.single b) }
{
    match b {
        b'+' => Some(kind::PLUS),
        b'-' => Some(kind::MINUS),
        b'*' => Some(kind::TIMES),
        b'=' => Some(kind::EQUAL),
        b'<' => Some(kind::LESS),
        b'>' => Some(kind::GREATER),
        b'(' => Some(kind::OPEN_BRACKET),
        b')' => Some(kind::CLOSE_BRACKET),
        b'[' => Some(kind::OPEN_SUBSCRIPT),
        b']' => Some(kind::CLOSE_SUBSCRIPT),
        b'{' => Some(kind::OPEN_BRACE),
        b'}' => Some(kind::CLOSE_BRACE),
        b';' => Some(kind::SEMICOLON),
        b',' => Some(kind::COMMA),
        _ => None,
    }
}

#[tactic(auto, unfolding(crate::specs::Lexemes::symbol))]
fn symbol(b: u8, c: u8) -> Lexeme
    ensures { result ≡ lexemes.symbol b c }
{
    if let Some(kind) = double(b, c) {
        return Lexeme::Token(kind, 2, 0);
    }
    match single(b) {
        Some(kind) => Lexeme::Token(kind, 1, 0),
        None => Lexeme::Broken(Reason::BrokenToken),
    }
}

// What stands at i.
#[tactic(auto, unfolding(crate::specs::Lexemes::lexeme))]
fn lexeme_at(s: &[u8], i: usize) -> Lexeme
    requires { (i < length s.now) × (length s.now ≤ 16384) }
    ensures { result ≡ lexemes.lexeme (drop i s.now) }
{
    let b = byte(s, i, 0);
    if one_of(b" \t\r\n", b) {
        return Lexeme::Separator;
    }
    if letter(b) {
        return named(s, i);
    }
    if digit_value(b) < 10 {
        return number(s, 10, 2147483647, 0, i);
    }
    if b == b'#' {
        return number(s, 16, 0xffff_ffff, 1, i + 1);
    }
    if b == b'\'' {
        return byte_literal(s, i);
    }
    if b == b'|' {
        return comment(s, i + 1);
    }
    symbol(b, byte(s, i, 1))
}

// The tokens of a source that is not too long.
fn scan(
    source: &[u8],
    kinds: &mut [u8; 1024],
    places: &mut [u32; 1024],
    values: &mut [u32; 1024],
) -> Result<usize, Refusal>
    requires { length source.now ≤ 16384 }
    ensures source_value { outcome source.now ≡ answer result kinds.new places.new values.new }
    ensures few { Few result }
{
    let mut i: usize = 0;
    let mut n: usize = 0;
    // a `while`, since a token takes more than one byte
    while i < source.len() {
        let found = lexeme_at(source, i);
        match found {
            Lexeme::Separator => {
                i += 1;
            }
            Lexeme::Broken(reason) => {
                return Err(Refusal {
                    reason,
                    place: i as u32,
                });
            }
            Lexeme::Token(kind, length, value) => {
                if 1024 <= n {
                    return Err(Refusal {
                        reason: Reason::ManyTokens,
                        place: i as u32,
                    });
                }
                kinds[n] = kind;
                places[n] = i as u32;
                values[n] = value;
                n += 1;
                i += length;
            }
        }
    }
    Ok(n)
}

// The tokens of a source: their kinds, places and values into the arrays, and how many there are; or the refusal.
// Open: the arrays past that number, and all of them where the source is refused.
pub fn tokens(
    source: &[u8],
    kinds: &mut [u8; 1024],
    places: &mut [u32; 1024],
    values: &mut [u32; 1024],
) -> Result<usize, Refusal>
    ensures source_value { outcome source.now ≡ answer result kinds.new places.new values.new }
    ensures few { Few result }
{
    if 16384 < source.len() {
        return Err(Refusal {
            reason: Reason::LongSource,
            place: 0,
        });
    }
    scan(source, kinds, places, values)
}
