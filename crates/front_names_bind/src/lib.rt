// The start of checking: the specifications' names into the name table, their rows into the syntax table; or the first complaint.
#![tactic(auto)]

ghost use Rattle.std.specs.Prelude.{◌≡◌, List, [], ℕ, ◌+◌, ◌-◌, ◌<◌, ◌≤◌, length, set};
ghost use Rattle.front_names_table.specs.View.{text_at};
ghost use Rattle.front_names_table.specs.Held.{held};
ghost use Rattle.x_grammar.specs.Grammar.{Specification, Process, text_process, text_specifications};
ghost use Rattle.x_grammar.specs.TokenArrays.{unread};
ghost use Rattle.front_names_bind.specs.Going.{scope_of, Puts, EntersAny, Fills};
ghost use Rattle.front_names_judge.specs.Judge.{constant_read, constant_at, read_as};

use front_names_judge::{Item, constant_of, item_of, judge, width};
use front_names_table::{Names, Sort, number};
use front_read_expressions::{kind_at, put};
use x_spelling::kind;
use x_tokens::TokenArrays;
use x_tokens::refusal::{Reason, Refusal};

// How many rows and words are declared.
#[derive(Clone, Copy)]
pub struct Declared {
    pub rows: usize,
    pub words: u32,
}

// The constant at token j.
fn constant_at(
    source: &[u8],
    tokens: TokenArrays,
    names: &Names<256>,
    j: usize,
) -> Result<u32, Reason>
    ensures { (sizes : List ℕ) (made used : ℕ)
        → read_as result ≡ constant_read (text_at source.now tokens.entry.places.now tokens.entry.values.now)
        (scope_of source.now (held names.now sizes) names.now.count made used)
        (constant_at tokens.entry.kinds.now tokens.entry.values.now j) }
{
    if kind_at(tokens.kinds, j) == kind::NUMBER {
        return Ok(number(tokens.values, j));
    }
    constant_of(names.stands_for(source, number(tokens.places, j), number(tokens.values, j)))
}

// A name of n bytes at p and its item into the name table, and the item's row, if it has one, into the syntax table.
// Six parameters here and in `declare`: the two tables are lent apart, since constants and names are looked up in the one alone, and the syntax table is its caller's.
fn enter(
    names: &mut Names<256>,
    table: &mut [u32; 4096],
    e: Item,
    p: u32,
    n: u32,
    so_far: Declared,
) -> Declared
    requires { (names.old.count ≤ 255) × ((so_far.rows ≤ names.old.count) × ((so_far.words + e.words ≤ 8192) × (e.rows ≤ 1))) }
    ensures { (sizes : List ℕ) → names.old.count < length sizes
        → Puts e p n so_far names.old names.new sizes (set sizes names.old.count e.size) table.old table.new result }
{
    let sort = u32::from(e.sort);
    names.add(p, n, e.row, sort, e.word);
    if e.sort != Sort::Val {
        put(table, so_far.rows, sort, e.word, e.size, 0);
    }
    Declared {
        rows: so_far.rows + e.rows,
        words: so_far.words + e.words,
    }
}

// The specification at token i.
fn declare(
    source: &[u8],
    tokens: TokenArrays,
    names: &mut Names<256>,
    table: &mut [u32; 4096],
    i: usize,
    so_far: Declared,
) -> Result<Declared, Refusal>
    requires { (i ≤ 1024) × ((so_far.rows ≤ names.old.count) × ((names.old.count ≤ 256) × (so_far.words ≤ 8192))) }
    ensures { EntersAny source.now tokens.entry.kinds.now tokens.entry.places.now tokens.entry.values.now i so_far
        names.old names.new table.old table.new result }
{
    let k = kind_at(tokens.kinds, i);
    let p = number(tokens.places, i + 1);
    let n = number(tokens.values, i + 1);
    let m = names.stands_for(source, p, n);
    let c = constant_at(source, tokens, names, i + 3);
    let q = number(tokens.places, i + 3);
    judge(k, m, c, names.count, so_far.words, p, q)?;
    let e = item_of(k, c.unwrap_or(0), so_far.rows as u32, so_far.words);
    Ok(enter(names, table, e, p, n, so_far))
}

// Expected form: the name table filled at the start of checking. The specifications before token `start`, the process's first.
// Open: both tables where a specification is refused; and everything where the tokens are no program, or `start` is not its process's first token.
pub fn bind(
    source: &[u8],
    tokens: TokenArrays,
    names: &mut Names<256>,
    table: &mut [u32; 4096],
    start: usize,
) -> Result<Declared, Refusal>
    requires { start ≤ 1024 }
    ensures { (sizes : List ℕ) × ((ds : List Specification) (b : Process)
        → unread tokens.entry.kinds.now tokens.entry.values.now 0 ≡ text_specifications ds (text_process b [])
        → start ≡ length tokens.entry.kinds.now - length (text_process b [])
        → Fills source.now tokens.entry.kinds.now tokens.entry.places.now tokens.entry.values.now ds table.old table.new
        (held names.new sizes) names.new.count result) }
{
    names.count = 0;
    let mut so_far = Declared { rows: 0, words: 0 };
    let mut i: usize = 0;
    // a `while`, since a specification takes several tokens
    while i < start {
        let k = kind_at(tokens.kinds, i);
        if k == kind::COMMENT {
            i += 1;
        } else {
            so_far = declare(source, tokens, names, table, i, so_far)?;
            i += width(k);
        }
    }
    Ok(so_far)
}
