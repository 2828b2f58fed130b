// The table of the names that a source declares.
#![tactic(auto)]

ghost use Rattle.std.specs.Prelude.{◌≡◌, [], ◌∷◌, ◌++◌, ◌+◌, ◌-◌, ◌<◌, length};
ghost use Rattle.front_names_table.specs.View.{text_at};
ghost use Rattle.x_names.specs.Scope.{same};
ghost use Rattle.text_lines.specs.Text.{written, fitted, decimal};
ghost use Rattle.text_buffer.specs.Buffer.{left, placed};
ghost use Rattle.text_names.specs.Names as spec;
ghost use Rattle.text_names.specs.NamesSoFar.{tokens_of, words_of};
ghost use Rattle.text_names.specs.Walk as walk;
ghost use Rattle.text_names.specs.Walk.{val_found, constant_found, Reads};
ghost use Rattle.text_names.specs.Tokens.{IsAccepted};
ghost use Rattle.text_names.specs.Names.{right, data_head, val_tail, names_of};

use front_names_table::{number, text};
use front_read_expressions::kind_at;
use text_buffer::{append, append_line};
use text_lines::Line;
use text_position::put_spaces;
use x_spelling::kind;
use x_tokens::TokenArrays;

const COLUMNS: usize = 7;

// A number at the right of so many columns.
fn put_right(line: Line, n: u32, columns: usize) -> Line
    ensures { written result ≡ fitted (written line ++ right columns (decimal n)) }
{
    let before = columns.saturating_sub(1);
    if n < 10 {
        return put_spaces(line, before).decimal(n);
    }
    put_right(line, n / 10, before).decimal(n % 10)
}

// What stands before the name of a var or an array.
fn data_head(sort: &[u8], first: u32, words: u32) -> Line
    ensures { written result ≡ fitted (data_head sort.now first words) }
{
    let placed = put_right(Line::empty().put_all(sort), first, COLUMNS);
    put_right(placed, words, COLUMNS).put_all(b"  ")
}

// A word as a signed number, added to a line.
fn put_signed(line: Line, w: u32) -> Line
    ensures { written result ≡ fitted (written line ++ spec.signed w) }
{
    if w < 2147483648 {
        return line.decimal(w);
    }
    line.put(b'-').decimal(w.wrapping_neg())
}

// What stands after the name of a val.
fn val_tail(w: u32) -> Line
    ensures { written result ≡ val_tail w }
{
    put_signed(Line::empty().put_all(b" = "), w).put(b'\n')
}

// The line of a var or an array ends after the name.
fn line_end() -> Line
    ensures { written result ≡ 10 ∷ [] }
{
    Line::empty().put(b'\n')
}

// A name with what stands before and after it.
fn put_name(out: &mut [u8], at: usize, head: Line, name: &[u8], tail: Line) -> usize
    ensures { left out.new result ≡ placed out.old at (written head ++ (name.now ++ written tail)) }
{
    let headed = append_line(out, at, head);
    let named = append(out, headed, name);
    append_line(out, named, tail)
}

// The line of a name that a specification of kind k declares: `used` words are declared before it, w is its constant's word.
fn put_item(out: &mut [u8], at: usize, k: u8, used: u32, w: u32, name: &[u8]) -> usize
    ensures { left out.new result ≡ placed out.old at (walk.item_line k used w name.now) }
{
    match k {
        kind::VAR => put_name(out, at, data_head(b"var  ", used, 1), name, line_end()),
        kind::ARRAY => put_name(out, at, data_head(b"array", used, w), name, line_end()),
        _ => {
            let head = Line::empty().put_all(b"val                  ");
            put_name(out, at, head, name, val_tail(w))
        }
    }
}

// How many words it declares.
fn item_words(k: u8, w: u32) -> u32
    ensures { result ≡ walk.item_words k w }
{
    match k {
        kind::VAR => 1,
        kind::ARRAY => w,
        _ => 0,
    }
}

// Its word, if it is a val.
fn item_value(k: u8, w: u32) -> u32
    ensures { result ≡ walk.item_value k w }
{
    match k {
        kind::VAR | kind::ARRAY => 0,
        _ => w,
    }
}

// The bytes of token t.
fn token_text<'a>(source: &'a [u8], tokens: TokenArrays, t: usize) -> &'a [u8]
    ensures { result.now ≡ text_at source.now tokens.entry.places.now tokens.entry.values.now t }
{
    text(
        source,
        number(tokens.places, t) as usize,
        number(tokens.values, t) as usize,
    )
}

// A name that is declared: its token, and its word if it is a val.
#[derive(Clone, Copy)]
struct Declared {
    token: u32,
    word: u32,
}

// Whether a name is spelt as this text.
fn is_spelt(source: &[u8], tokens: TokenArrays, d: Declared, text: &[u8]) -> bool
    ensures { result ≡ same (text_at source.now tokens.entry.places.now tokens.entry.values.now d.token) text.now }
{
    x_spelling::equal(token_text(source, tokens, d.token as usize), text)
}

// The word of the val that token t names: the latest of the names that is spelt so.
fn val_word(source: &[u8], tokens: TokenArrays, names: &[Declared], t: usize) -> u32
    ensures { result ≡ val_found source.now tokens.entry.places.now tokens.entry.values.now (tokens_of names.now) (words_of names.now) (length names.now) t }
{
    let text = token_text(source, tokens, t);
    for k in (0..names.len()).rev() {
        if is_spelt(source, tokens, names[k], text) {
            return names[k].word;
        }
    }
    0
}

// The word of the constant at token j.
fn constant_word(source: &[u8], tokens: TokenArrays, names: &[Declared], j: usize) -> u32
    ensures { result ≡ constant_found source.now tokens.entry.kinds.now tokens.entry.places.now tokens.entry.values.now (tokens_of names.now) (words_of names.now) (length names.now) j }
{
    if kind_at(tokens.kinds, j) == kind::NUMBER {
        return number(tokens.values, j);
    }
    val_word(source, tokens, names, j)
}

// The lines of the names that the tokens declare, from the first specification to the last.
fn put_names(source: &[u8], tokens: TokenArrays, out: &mut [u8], at: usize) -> usize
    requires { Reads source.now tokens.kinds.now tokens.places.now tokens.values.now }
    ensures { left out.new result ≡ placed out.old at (walk.lines source.now tokens.entry.kinds.now tokens.entry.places.now tokens.entry.values.now) }
{
    let mut names = [Declared { token: 0, word: 0 }; 1024];
    let mut count: usize = 0;
    let mut used: u32 = 0;
    let mut end = at;
    let mut i: usize = 0;
    // A `while`, since a specification's kind says how many tokens it has.
    while i < tokens.kinds.len() {
        match kind_at(tokens.kinds, i) {
            kind::COMMENT => i += 1,
            k @ kind::VAR..=kind::VAL => {
                let w = constant_word(source, tokens, &names[..count], i + 3);
                let text = token_text(source, tokens, i + 1);
                end = put_item(out, end, k, used, w, text);
                names[count] = Declared {
                    token: (i + 1) as u32,
                    word: item_value(k, w),
                };
                count += 1;
                used += item_words(k, w);
                i += front_names_judge::width(k);
            }
            _ => return end,
        }
    }
    end
}

// The lines of the names that an accepted source declares, from a place of the buffer on, and the place after them.
pub fn lines(source: &[u8], out: &mut [u8], at: usize) -> usize
    requires { IsAccepted source.now }
    ensures { left out.new result ≡ placed out.old at (names_of source.now) }
{
    let mut kinds = [0u8; 1024];
    let mut places = [0u32; 1024];
    let mut values = [0u32; 1024];
    match x_tokens::tokens(source, &mut kinds, &mut places, &mut values) {
        Err(_) => at,
        Ok(n) => {
            let tokens = TokenArrays {
                kinds: &kinds[..n],
                places: &places[..n],
                values: &values[..n],
            };
            put_names(source, tokens, out, at)
        }
    }
}
