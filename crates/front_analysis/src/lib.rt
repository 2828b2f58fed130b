// The front end: tokens, grammar, depth and names, in document 01's order.
#![tactic(auto)]

ghost use Rattle.std.specs.Prelude.{◌≡◌, ◌≤◌, length, get_or};
ghost use Rattle.x_tokens.specs.declared.refusal.Reason.TheVariants.{Ungrammatical};
ghost use Rattle.x_tokens.specs.TokenList as scanned;
ghost use Rattle.x_grammar.specs.Grammar as grammar;
ghost use Rattle.x_grammar.specs.Automaton.{reads};
ghost use Rattle.x_grammar.specs.TokenArrays.{unread};
ghost use Rattle.x_grammar.specs.Nesting.{Bounded};
ghost use Rattle.x_verdict.specs.Front.{front};
ghost use Rattle.front_analysis.specs.Analysed.{Analysed, Parses};
ghost use Rattle.front_analysis.specs.Named.{Ready, named_as};

use arm_word::entry_or;
use front_names_bind::bind;
use front_names_resolve::resolve;
use front_names_table::Names;
use front_read_program::{Parsed, program};
use front_recognizer::{Fault, recognize};
use x_program::row;
use x_tokens::refusal::{Reason, Refusal};
use x_tokens::{TokenArrays, tokens};

// Refusal 7: process depth and N.
const DEPTH_LIMIT: usize = 32;

// Refusal 14: the bytes of code that a source needs, for each token and once.
const CODE_PER_TOKEN: usize = 48;

const CODE_MORE: usize = 256;

// What an accepted source has: tokens, rows, data words, and its depth N.
#[derive(Clone, Copy)]
pub struct Accepted {
    pub tokens: usize,
    pub rows: usize,
    pub words: u32,
    pub depth: usize,
}

// A refusal that concerns the source as a whole.
fn whole(reason: Reason) -> Refusal
    ensures { result ≡ record { reason = reason; place = 0 } }
{
    Refusal { reason, place: 0 }
}

// The names of a program that was read and whose raw rows stand in the table.
fn names(
    source: &[u8],
    tokens: TokenArrays,
    table: &mut [u32; 4096],
    parsed: Parsed,
) -> Result<Accepted, Refusal>
    requires { (parsed.start ≤ 1024) × (parsed.rows ≤ 1024) }
    ensures { (p : grammar.Program)
        → Ready source.now tokens.entry.kinds.now tokens.entry.places.now tokens.entry.values.now p parsed.start parsed.rows parsed.deepest table.old
        → Analysed (named_as source.now tokens.entry.kinds.now tokens.entry.places.now tokens.entry.values.now p) table.new result }
{
    let mut names = Names::new();
    let declared = bind(source, tokens, &mut names, table, parsed.start)?;
    match resolve(source, tokens, &names, table, declared.rows, parsed.rows) {
        Some(refusal) => Err(refusal),
        None => Ok(Accepted {
            tokens: tokens.kinds.len(),
            rows: parsed.rows,
            words: declared.words,
            depth: parsed.deepest,
        }),
    }
}

// The refusal of a source whose tokens are no program: at the first token that none continues with, or at the source's end.
fn ungrammatical(source: &[u8], tokens: TokenArrays, token: usize) -> Refusal
    requires { length source.now ≤ 16384 }
    ensures { result ≡ record { reason = Ungrammatical; place = get_or tokens.entry.places.now token (length source.now) } }
{
    Refusal {
        reason: Reason::Ungrammatical,
        place: entry_or(tokens.places, token, source.len() as u32),
    }
}

// The tokens are read into rows, the depth is tested, the names are resolved. `Bounded`, which the recognizer says, bounds the readers' stack.
fn read(source: &[u8], tokens: TokenArrays, table: &mut [u32; 4096]) -> Result<Accepted, Refusal>
    requires { (length source.now ≤ 16384)
        × ((length tokens.kinds.now ≤ 1024)
        × ((length tokens.places.now ≡ length tokens.kinds.now)
        × ((length tokens.values.now ≡ length tokens.kinds.now)
        × Bounded (reads (unread tokens.kinds.now tokens.values.now 0))))) }
    ensures { Parses source.now (scanned.entries tokens.entry.kinds.now tokens.entry.places.now tokens.entry.values.now 0 (length tokens.entry.kinds.now)) table.new result }
{
    match program(tokens, table) {
        Err(x) => Err(ungrammatical(source, tokens, x.token)),
        Ok(p) => {
            if DEPTH_LIMIT < p.depth.max(p.deepest) {
                return Err(whole(Reason::DeepProgram));
            }
            names(source, tokens, table, p)
        }
    }
}

// The tokens are recognized, and read where they are a program.
fn parse(source: &[u8], tokens: TokenArrays, table: &mut [u32; 4096]) -> Result<Accepted, Refusal>
    requires { (length source.now ≤ 16384)
        × ((length tokens.kinds.now ≤ 1024)
        × ((length tokens.places.now ≡ length tokens.kinds.now) × (length tokens.values.now ≡ length tokens.kinds.now))) }
    ensures { Parses source.now (scanned.entries tokens.entry.kinds.now tokens.entry.places.now tokens.entry.values.now 0 (length tokens.entry.kinds.now)) table.new result }
{
    match recognize(tokens.kinds, table) {
        Err(Fault::Ungrammatical(x)) => Err(ungrammatical(source, tokens, x.token)),
        Err(Fault::Deep) => Err(whole(Reason::DeepProgram)),
        Ok(()) => read(source, tokens, table),
    }
}

// What a source comes to, with a table of so many words and a code buffer of so many bytes; accepted, its rows are in `table`.
// Open: `table` where the source is refused, and past the rows where it is accepted.
pub fn analyse(
    source: &[u8],
    table_words: usize,
    code_bytes: usize,
    table: &mut [u32; 4096],
) -> Result<Accepted, Refusal>
    ensures { Analysed (front source.now table_words code_bytes) table.new result }
{
    let mut kinds: [u8; 1024] = [0; 1024];
    let mut places: [u32; 1024] = [0; 1024];
    let mut values: [u32; 1024] = [0; 1024];
    let n = tokens(source, &mut kinds, &mut places, &mut values)?;
    if table_words < row::WORDS * n {
        return Err(whole(Reason::ShortTable));
    }
    if code_bytes < CODE_PER_TOKEN * n + CODE_MORE {
        return Err(whole(Reason::ShortCode));
    }
    let tokens = TokenArrays {
        kinds: &kinds[..n],
        places: &places[..n],
        values: &values[..n],
    };
    parse(source, tokens, table)
}
