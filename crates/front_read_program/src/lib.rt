// A reader of programs: specifications, then one process.
#![tactic(auto)]

ghost use Rattle.std.specs.Prelude.{◌≡◌, ℕ, ◌+◌, ◌≤◌, ◌⊎◌, List, length, get_or, MatchResult};
ghost use Rattle.x_spelling.specs.Kinds as tokens;
ghost use Rattle.x_grammar.specs.Automaton.{reads};
ghost use Rattle.x_grammar.specs.Nesting.{Bounded};
ghost use Rattle.x_grammar.specs.TokenArrays.{unread};
ghost use Rattle.front_read_program.specs.Answer.{answer, Written};
ghost use Rattle.front_read_program.specs.SpecificationReaders.{«ReadsSpecification», «ReadsFront», ended};

use front_read_expressions::{Ungrammatical, kind_at};
use front_read_processes::process;
use x_spelling::kind;
use x_tokens::TokenArrays;

// A specification that was read: the token after its `;`, and the number of rows that it declares.
#[derive(Clone, Copy)]
pub struct Specified {
    pub next: usize,
    pub rows: usize,
}

// What stands before the process: the token after the last specification's `;`, the process's first token that is no comment, and the number of declared rows.
#[derive(Clone, Copy)]
pub struct Front {
    pub start: usize,
    pub process: usize,
    pub rows: usize,
}

// A program that was read: the token after the last specification's `;`, the number of rows, the process depth and the deepest expression.
#[derive(Clone, Copy)]
pub struct Parsed {
    pub start: usize,
    pub rows: usize,
    pub depth: usize,
    pub deepest: usize,
}

// Token i is of kind `want`.
fn expect(kinds: &[u8], i: usize, want: u8) -> Result<(), Ungrammatical>
    ensures { MatchResult result (λ _. get_or kinds.now i 0 ≡ want) (λ x. (x.token ≡ i) × (get_or kinds.now i 0 ≡ want → ⊥)) }
{
    if kind_at(kinds, i) == want {
        Ok(())
    } else {
        Err(Ungrammatical { token: i })
    }
}

// Token i is a constant: a number or a name.
fn expect_constant(kinds: &[u8], i: usize) -> Result<(), Ungrammatical>
    ensures { MatchResult result (λ _. (get_or kinds.now i 0 ≡ tokens.number) ⊎ (get_or kinds.now i 0 ≡ tokens.name))
        (λ x. (x.token ≡ i) × (get_or kinds.now i 0 ≡ tokens.number → ⊥) × (get_or kinds.now i 0 ≡ tokens.name → ⊥)) }
{
    match kind_at(kinds, i) {
        kind::NUMBER | kind::NAME => Ok(()),
        _ => Err(Ungrammatical { token: i }),
    }
}

// The `;` at token j, after a specification that declares d rows.
fn end(kinds: &[u8], j: usize, d: usize) -> Result<Specified, Ungrammatical>
    requires { j ≤ length kinds.now }
    ensures { result ≡ ended kinds.now j d }
{
    expect(kinds, j, kind::SEMICOLON)?;
    Ok(Specified {
        next: j + 1,
        rows: d,
    })
}

// `var n` at token i.
fn var_at(kinds: &[u8], i: usize) -> Result<Specified, Ungrammatical>
    requires { (length kinds.now ≤ 1024) × (get_or kinds.now i 0 ≡ tokens.var) }
    ensures { (values : List ℕ) → «ReadsSpecification» kinds.now values i result }
{
    expect(kinds, i + 1, kind::NAME)?;
    end(kinds, i + 2, 1)
}

// `array n [ c ]` at token i.
fn array_at(kinds: &[u8], i: usize) -> Result<Specified, Ungrammatical>
    requires { (length kinds.now ≤ 1024) × (get_or kinds.now i 0 ≡ tokens.array) }
    ensures { (values : List ℕ) → «ReadsSpecification» kinds.now values i result }
{
    expect(kinds, i + 1, kind::NAME)?;
    expect(kinds, i + 2, kind::OPEN_SUBSCRIPT)?;
    expect_constant(kinds, i + 3)?;
    expect(kinds, i + 4, kind::CLOSE_SUBSCRIPT)?;
    end(kinds, i + 5, 1)
}

// `val n = c` at token i.
fn val_at(kinds: &[u8], i: usize) -> Result<Specified, Ungrammatical>
    requires { (length kinds.now ≤ 1024) × (get_or kinds.now i 0 ≡ tokens.val) }
    ensures { (values : List ℕ) → «ReadsSpecification» kinds.now values i result }
{
    expect(kinds, i + 1, kind::NAME)?;
    expect(kinds, i + 2, kind::EQUAL)?;
    expect_constant(kinds, i + 3)?;
    end(kinds, i + 4, 0)
}

// A specification at token i, with its `;`.
fn specification(kinds: &[u8], i: usize) -> Result<Specified, Ungrammatical>
    requires { (length kinds.now ≤ 1024) × (tokens.var ≤ get_or kinds.now i 0) × (get_or kinds.now i 0 ≤ tokens.val) }
    ensures { (values : List ℕ) → «ReadsSpecification» kinds.now values i result }
{
    match kind_at(kinds, i) {
        kind::VAR => var_at(kinds, i),
        kind::ARRAY => array_at(kinds, i),
        _ => val_at(kinds, i),
    }
}

// Comments and specifications, up to the process.
fn specifications(kinds: &[u8]) -> Result<Front, Ungrammatical>
    requires { length kinds.now ≤ 1024 }
    ensures { (values : List ℕ) → «ReadsFront» kinds.now values 0 0 0 result }
{
    let mut front = Front {
        start: 0,
        process: 0,
        rows: 0,
    };
    // A `loop`, since a specification takes several tokens.
    loop {
        match kind_at(kinds, front.process) {
            kind::COMMENT => front.process += 1,
            kind::VAR..=kind::VAL => {
                let s = specification(kinds, front.process)?;
                front = Front {
                    start: s.next,
                    process: s.next,
                    rows: front.rows + s.rows,
                };
            }
            _ => return Ok(front),
        }
    }
}

// The program that the tokens are: its raw rows go into the table, numbered from the first row that no specification declares.
// `Bounded` is required for the stack alone: the readers' calls nest as the program does, so the tokens are to be recognized before they are read.
// Open: the table where the tokens are no program.
pub fn program(tokens: TokenArrays, table: &mut [u32; 4096]) -> Result<Parsed, Ungrammatical>
    requires { (length tokens.kinds.now ≤ 1024) × (length tokens.kinds.now ≤ length tokens.values.now) × Bounded (reads (unread tokens.kinds.now tokens.values.now 0)) }
    ensures { (result ≡ answer (length tokens.entry.kinds.now) (reads (unread tokens.entry.kinds.now tokens.entry.values.now 0)))
        × Written (reads (unread tokens.entry.kinds.now tokens.entry.values.now 0)) table.old table.new }
{
    let mut pending = [0u16; 1024];
    let front = specifications(tokens.kinds)?;
    let p = process(tokens, table, &mut pending, front.rows, front.process, 0)?;
    if p.next < tokens.kinds.len() {
        return Err(Ungrammatical { token: p.next });
    }
    Ok(Parsed {
        start: front.start,
        rows: p.rows,
        depth: p.depth,
        deepest: p.deepest,
    })
}
