// What is wrong with a refused source.
#![tactic(auto)]

ghost use Rattle.std.specs.Prelude.{◌≡◌, List, ℕ, min, length};
ghost use Rattle.x_tokens.specs.TokenList.{entries, outcome};
ghost use Rattle.text_lines.specs.Text.{written, fitted};
ghost use Rattle.text_buffer.specs.Buffer.{left, placed};
ghost use Rattle.text_refusal.specs.Refusal as spec;
ghost use Rattle.text_refusal.specs.Refusal.{near_in, no_token, reason_of};

use front_read_expressions::is_diadic;
use text_buffer::append_line;
use text_lines::Line;
use x_spelling::kind;
use x_tokens::refusal::Reason;

const NO_TOKEN: u8 = 0;

// The kinds of the token at a place and of the two before it; 0 where there is none, as `no_token` of specs/Refusal.
#[derive(Clone, Copy)]
pub struct Near {
    pub before: u8,
    pub previous: u8,
    pub met: u8,
}

// A text as a line, as far as it fits.
fn line(text: &[u8]) -> Line
    ensures { written result ≡ fitted text.now }
{
    Line::empty().put_all(text)
}

// The sentences of 1 to 5 and 7. By number, as `Translation` and the definitions of these texts have it.
#[tactic(auto, unfolding(crate::specs::Refusal::early_sentence))]
fn early_sentence(n: u32) -> Line
    ensures { written result ≡ fitted (spec.early_sentence n) }
{
    if n == Reason::LongSource as u32 {
        return line(b"1: the source has more than 16,384 bytes\n");
    }
    if n == Reason::BrokenToken as u32 {
        return line(
            b"2: no token stands here: an unknown character, a comment without its second |, or a broken literal\n",
        );
    }
    if n == Reason::LargeNumber as u32 {
        return line(b"3: the number is too large: at most 2147483647, or #FFFFFFFF\n");
    }
    if n == Reason::LongName as u32 {
        return line(b"4: the name has more than 32 characters\n");
    }
    if n == Reason::ManyTokens as u32 {
        return line(
            b"5: the source has more than 1,024 tokens, comments counted: this is the first of the others\n",
        );
    }
    line(b"7: an expression or a process is nested more than 32 deep\n")
}

// The sentences of 8 to 14.
#[tactic(auto, unfolding(crate::specs::Refusal::late_sentence))]
fn late_sentence(n: u32) -> Line
    ensures { written result ≡ fitted (spec.late_sentence n) }
{
    if n == Reason::NotDeclared as u32 {
        return line(b"8: the name is not declared before this place\n");
    }
    if n == Reason::DeclaredTwice as u32 {
        return line(b"9: the name is declared already\n");
    }
    if n == Reason::WrongKind as u32 {
        return line(
            b"10: the name is of the wrong sort here: an array takes a subscript, a var none, a val no new value; a constant is a val\n",
        );
    }
    if n == Reason::BadLength as u32 {
        return line(b"11: the length of the array is not 1 to 8,192\n");
    }
    if n == Reason::TooMuch as u32 {
        return line(b"12: with this name the source has more than 256 names or 8,192 data words\n");
    }
    if n == Reason::ShortTable as u32 {
        return line(b"13: the table is too short for so many tokens\n");
    }
    line(b"14: the code buffer is too short for so many tokens\n")
}

// The sentence of any number but 6.
fn sentence(n: u32) -> Line
    ensures { written result ≡ fitted (spec.sentence n) }
{
    if n <= Reason::DeepProgram as u32 {
        return early_sentence(n);
    }
    late_sentence(n)
}

// The first token at a place or after it, with the two before it.
fn near_in(kinds: &[u8], places: &[u32], place: u32) -> Near
    ensures { (vs : List ℕ) → result ≡ near_in (entries kinds.now places.now vs 0 (min (length kinds.now) (length places.now))) place no_token no_token }
{
    let mut before = NO_TOKEN;
    let mut previous = NO_TOKEN;
    for (kind, at) in kinds.iter().zip(places) {
        if place <= *at {
            return Near {
                before,
                previous,
                met: *kind,
            };
        }
        before = previous;
        previous = *kind;
    }
    Near {
        before,
        previous,
        met: NO_TOKEN,
    }
}

// The same in a source.
fn met_at(source: &[u8], place: u32) -> Near
    ensures { result ≡ spec.near (outcome source.now) place }
{
    let mut kinds = [0u8; 1024];
    let mut places = [0u32; 1024];
    let mut values = [0u32; 1024];
    let s = x_tokens::tokens(source, &mut kinds, &mut places, &mut values);
    match s {
        Err(_) => Near {
            before: NO_TOKEN,
            previous: NO_TOKEN,
            met: NO_TOKEN,
        },
        Ok(n) => near_in(&kinds[..n], &places[..n], place),
    }
}

// A process may start after a token of kind k.
fn starts(k: u8) -> bool
    ensures { result ≡ spec.starts k }
{
    let marks = [
        NO_TOKEN,
        kind::COMMENT,
        kind::OPEN_BRACE,
        kind::SEMICOLON,
        kind::THEN,
        kind::ELSE,
        kind::DO,
    ];
    x_spelling::one_of(&marks, k)
}

// What may be meant at the end of the source.
#[tactic(auto, unfolding(crate::specs::Refusal::end_hint))]
fn end_hint(p: u8) -> Line
    ensures { written result ≡ fitted (spec.end_hint p) }
{
    match p {
        NO_TOKEN => line(b"a program has one process at least: skip does nothing\n"),
        kind::SEMICOLON => line(b"after a ; a process or a specification is missing\n"),
        _ => line(b"perhaps an else, a process or a closing bracket is missing\n"),
    }
}

// At a = that stands behind no operator.
#[tactic(auto, unfolding(crate::specs::Refusal::equal_hint))]
fn equal_hint(b: u8, p: u8) -> Line
    ensures { written result ≡ fitted (spec.equal_hint b p) }
{
    if p == kind::NAME {
        if starts(b) {
            return line(b"perhaps := is meant\n");
        }
        return line(b"an expression has one operator; put a part of it in brackets\n");
    }
    line(b"an expression has one operator, and := assigns\n")
}

// At an operator.
#[tactic(auto, unfolding(crate::specs::Refusal::operator_hint))]
fn operator_hint(n: Near) -> Line
    ensures { written result ≡ fitted (spec.operator_hint n) }
{
    if is_diadic(n.previous) {
        return line(
            b"two operators side by side: = compares, a sign stands in brackets, and a val takes no sign\n",
        );
    }
    if n.met == kind::EQUAL {
        return equal_hint(n.before, n.previous);
    }
    line(
        b"an expression has one operator, or + * and or xor again and again; put a part of it in brackets\n",
    )
}

// At a name.
#[tactic(auto, unfolding(crate::specs::Refusal::name_hint))]
fn name_hint(p: u8) -> Line
    ensures { written result ≡ fitted (spec.name_hint p) }
{
    if p == kind::NAME {
        return line(b"perhaps a word such as var or if is not in small letters\n");
    }
    line(b"perhaps a ; or an operator is missing before this name\n")
}

// At another token.
#[tactic(auto, unfolding(crate::specs::Refusal::token_hint))]
fn token_hint(p: u8, m: u8) -> Line
    ensures { written result ≡ fitted (spec.token_hint p m) }
{
    match m {
        kind::SEMICOLON => line(
            b"perhaps an if without its else, or processes without { and }; no ; stands after the last process\n",
        ),
        kind::CLOSE_BRACE => line(b"perhaps a ; before the } or an if without its else\n"),
        kind::COMMA => line(b"each name has a specification of its own: var a; var b;\n"),
        kind::COMMENT => line(b"a comment stands before a specification or a process only\n"),
        kind::NAME => name_hint(p),
        _ => Line::empty(),
    }
}

// By the token at the place.
#[tactic(auto, unfolding(crate::specs::Refusal::hint))]
fn hint(n: Near) -> Line
    ensures { written result ≡ fitted (spec.hint n) }
{
    if n.met == NO_TOKEN {
        return end_hint(n.previous);
    }
    if is_diadic(n.met) {
        return operator_hint(n);
    }
    token_hint(n.previous, n.met)
}

// What was met.
fn met_sentence(m: u8) -> Line
    ensures { written result ≡ fitted (spec.met_sentence m) }
{
    if m == NO_TOKEN {
        return line(b"6: the source ends before the program does\n");
    }
    line(b"6: no program goes on with this token\n")
}

// The reason of a refusal, from a place of the buffer on, and the place after it.
pub fn reason(source: &[u8], n: u32, place: u32, out: &mut [u8], at: usize) -> usize
    ensures { left out.new result ≡ placed out.old at (reason_of source.now n place) }
{
    if n != Reason::Ungrammatical as u32 {
        return append_line(out, at, sentence(n));
    }
    let near = met_at(source, place);
    let said = append_line(out, at, met_sentence(near.met));
    append_line(out, said, hint(near))
}
