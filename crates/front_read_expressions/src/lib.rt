// A reader of expressions by recursive descent, which writes the raw rows of what it reads as they complete.
#![tactic(auto)]

ghost use Rattle.std.specs.Prelude.{◌≡◌, ◌+◌, ◌-◌, ◌*◌, ◌<◌, ◌≤◌, get_or, eqb, false, Ok};
ghost use Rattle.std.proofs.lemmas.List.Edits.{sets};
ghost use Rattle.arm_word.specs.Choice.{pick};
ghost use Rattle.x_spelling.specs.Kinds as kinds;
ghost use Rattle.x_program.specs.Layout.{row_words};
ghost use Rattle.x_grammar.specs.Grammar.{is_monadic, is_diadic, is_associative};
ghost use Rattle.x_grammar.specs.RawRows.{row, monadic_number};
ghost use Rattle.front_read_expressions.specs.Reads.{Reads, expression_form, operand_form, chain_form, Fit, Within, Ready, Shallow};
ghost use Rattle.front_read_expressions.specs.Reads.{closed, deepened, deepened_extent, counted_row, tabled, row_of_last, row_of_two};

use arm_word::entry_or;
use x_program::{operator, row};
use x_spelling::kind;
use x_tokens::TokenArrays;

// How far a part goes: the next token to read, the number of rows, the process depth and the deepest expression.
#[derive(Clone, Copy)]
pub struct Extent {
    pub next: usize,
    pub rows: usize,
    pub depth: usize,
    pub deepest: usize,
}

// The token that no program continues with.
#[derive(Clone, Copy)]
pub struct Ungrammatical {
    pub token: usize,
}

impl Extent {
    // After a part with depths `depth` and `deepest`; the whole adds `more` and `deeper` to the deepest part.
    pub fn deepen(self, depth: usize, deepest: usize, more: usize, deeper: usize) -> Extent
        requires { Shallow (Ok self) × (depth ≤ 1024) × (deepest ≤ 1024) × (more ≤ 1) × (deeper ≤ 1) }
        ensures { result ≡ deepened_extent self depth deepest more deeper }
    {
        Extent {
            depth: self.depth.max(depth) + more,
            deepest: self.deepest.max(deepest) + deeper,
            ..self
        }
    }
}

// The kind of token i, 0 past the last.
pub fn kind_at(kinds: &[u8], i: usize) -> u8
    ensures { result ≡ get_or kinds.now i 0 }
{
    entry_or(kinds, i, 0)
}

// Row n of the table. Six parameters: the words one by one and no Row, since a literal of four named fields at each of the many calls would be no plainer.
pub fn put(table: &mut [u32; 4096], n: usize, kind: u32, a: u32, b: u32, c: u32)
    requires { n < 1024 }
    ensures { table.new ≡ sets table.old (row_words * n) (row kind a b c) }
{
    table[row::WORDS * n] = kind;
    table[row::WORDS * n + 1] = a;
    table[row::WORDS * n + 2] = b;
    table[row::WORDS * n + 3] = c;
}

// The closing token of kind `want` after what was read; a refusal stays as it is.
pub fn close(
    kinds: &[u8],
    read: Result<Extent, Ungrammatical>,
    want: u8,
) -> Result<Extent, Ungrammatical>
    requires { Within kinds.now read × (0 < want) }
    ensures { result ≡ closed kinds.now want read }
{
    let part = read?;
    if kind_at(kinds, part.next) == want {
        Ok(Extent {
            next: part.next + 1,
            ..part
        })
    } else {
        Err(Ungrammatical { token: part.next })
    }
}

// What was read, deepened as `Extent::deepen` does it; a refusal stays as it is.
pub fn deepen(
    read: Result<Extent, Ungrammatical>,
    depth: usize,
    deepest: usize,
    more: usize,
    deeper: usize,
) -> Result<Extent, Ungrammatical>
    requires { Shallow read × (depth ≤ 1024) × (deepest ≤ 1024) × (more ≤ 1) × (deeper ≤ 1) }
    ensures { result ≡ deepened read depth deepest more deeper }
{
    Ok(read?.deepen(depth, deepest, more, deeper))
}

// The row (kind, a, the last row, 0) after what was read; after a refusal none.
pub fn add_row(
    table: &mut [u32; 4096],
    read: Result<Extent, Ungrammatical>,
    kind: u32,
    a: u32,
) -> Result<Extent, Ungrammatical>
    requires { Ready read }
    ensures { (result ≡ counted_row read) × (table.new ≡ tabled table.old read (row_of_last kind a)) }
{
    let before = read?;
    put(table, before.rows, kind, a, (before.rows - 1) as u32, 0);
    Ok(Extent {
        rows: before.rows + 1,
        ..before
    })
}

// The row (kind, a, b, the last row) after what was read; after a refusal none.
pub fn add_row_of_two(
    table: &mut [u32; 4096],
    read: Result<Extent, Ungrammatical>,
    kind: u32,
    a: u32,
    b: u32,
) -> Result<Extent, Ungrammatical>
    requires { Ready read }
    ensures { (result ≡ counted_row read) × (table.new ≡ tabled table.old read (row_of_two kind a b)) }
{
    let before = read?;
    put(table, before.rows, kind, a, b, (before.rows - 1) as u32);
    Ok(Extent {
        rows: before.rows + 1,
        ..before
    })
}

pub fn is_monadic(k: u8) -> bool
    ensures { result ≡ is_monadic k }
{
    matches!(k, kind::MINUS | kind::NOT)
}

// The number of a monadic operator in the syntax table.
fn monadic_number(k: u8) -> u32
    ensures { result ≡ monadic_number k }
{
    match k {
        kind::MINUS => operator::NEGATE,
        _ => operator::INVERT,
    }
}

pub fn is_diadic(k: u8) -> bool
    ensures { result ≡ is_diadic k }
{
    matches!(k, kind::PLUS..=kind::AT_LEAST)
}

// A chain of operator o goes on with a token of kind k.
fn goes_on(o: u8, k: u8) -> bool
    ensures { result ≡ pick (is_associative o) (eqb k o) false }
{
    match o {
        kind::PLUS | kind::TIMES..=kind::XOR => k == o,
        _ => false,
    }
}

// An expression at token i; its rows are from row n on.
#[cycle(chain_expression_operand)]
pub fn expression(
    tokens: TokenArrays,
    table: &mut [u32; 4096],
    n: usize,
    i: usize,
) -> Result<Extent, Ungrammatical>
    requires { Fit tokens.kinds.now tokens.values.now n i }
    ensures { Reads expression_form tokens.entry.kinds.now tokens.entry.values.now i n table.old result table.new }
{
    let k = kind_at(tokens.kinds, i);
    if is_monadic(k) {
        let under = operand(tokens, table, n, i + 1)?;
        let whole = add_row(table, Ok(under), row::MONADIC, monadic_number(k));
        return deepen(whole, 0, 0, 0, 1);
    }
    let first = operand(tokens, table, n, i)?;
    let o = kind_at(tokens.kinds, first.next);
    if !is_diadic(o) {
        return Ok(first);
    }
    let rest = chain(tokens, table, o, first.rows, first.next + 1)?;
    let whole = add_row_of_two(
        table,
        Ok(rest),
        row::DIADIC,
        u32::from(o) - kind::OPERATOR_BASE,
        (first.rows - 1) as u32,
    );
    deepen(whole, 0, first.deepest, 0, 1)
}

// The operands after an operator o, grouped to the right.
#[cycle(chain_expression_operand)]
fn chain(
    tokens: TokenArrays,
    table: &mut [u32; 4096],
    o: u8,
    n: usize,
    i: usize,
) -> Result<Extent, Ungrammatical>
    requires { (Fit tokens.kinds.now tokens.values.now n i) × (kinds.operator_base < o) }
    ensures { Reads (chain_form o) tokens.entry.kinds.now tokens.entry.values.now i n table.old result table.new }
{
    let first = operand(tokens, table, n, i)?;
    if !goes_on(o, kind_at(tokens.kinds, first.next)) {
        return Ok(first);
    }
    let rest = chain(tokens, table, o, first.rows, first.next + 1)?;
    let joined = add_row_of_two(
        table,
        Ok(rest),
        row::DIADIC,
        u32::from(o) - kind::OPERATOR_BASE,
        (first.rows - 1) as u32,
    );
    deepen(joined, 0, first.deepest, 0, 1)
}

// A number, a variable, an element, or an expression in brackets.
#[cycle(chain_expression_operand)]
fn operand(
    tokens: TokenArrays,
    table: &mut [u32; 4096],
    n: usize,
    i: usize,
) -> Result<Extent, Ungrammatical>
    requires { Fit tokens.kinds.now tokens.values.now n i }
    ensures { Reads operand_form tokens.entry.kinds.now tokens.entry.values.now i n table.old result table.new }
{
    let one_token = Extent {
        next: i + 1,
        rows: n + 1,
        depth: 0,
        deepest: 1,
    };
    let k = kind_at(tokens.kinds, i);
    if k == kind::NUMBER {
        put(table, n, row::NUMBER, tokens.values[i], 0, 0);
        return Ok(one_token);
    }
    if k == kind::NAME {
        if kind_at(tokens.kinds, i + 1) == kind::OPEN_SUBSCRIPT {
            let e = expression(tokens, table, n, i + 2)?;
            let subscript = close(tokens.kinds, Ok(e), kind::CLOSE_SUBSCRIPT);
            let element = add_row(table, subscript, row::ELEMENT, i as u32);
            return deepen(element, 0, 0, 0, 1);
        }
        put(table, n, row::VARIABLE, i as u32, 0, 0);
        return Ok(one_token);
    }
    if k == kind::OPEN_BRACKET {
        let inner = expression(tokens, table, n, i + 1)?;
        let bracketed = close(tokens.kinds, Ok(inner), kind::CLOSE_BRACKET);
        return deepen(bracketed, 0, 0, 0, 1);
    }
    Err(Ungrammatical { token: i })
}
