// What a walk does between two rows: the first thing to do.
#![tactic(auto)]

ghost use Rattle.std.specs.Prelude.{◌≡◌, ◌∷◌, List, ℕ, ◌<◌, ◌+◌, length, set, ltb, eqb};
ghost use Rattle.arm_word.specs.Choice.{pick};
ghost use Rattle.x_program.specs.Table as tables;
ghost use Rattle.x_program.specs.Table.{monadic_of, diadic_of};
ghost use Rattle.x_meaning.specs.Operators as operators;
ghost use Rattle.x_meaning.specs.SourceRun.{top, rest};
ghost use Rattle.x_meaning.specs.TableRun as meaning;
ghost use Rattle.x_meaning.specs.TableRun.{State};
ghost use Rattle.walker_arrays.specs.declared.item.Item.TheVariants as item;
ghost use Rattle.walker_arrays.specs.declared.mode.Mode.TheVariants.{Settling, AtRow, BadSubscript};
ghost use Rattle.walker_arrays.specs.WorkingArrays.{Shows, Faces};

use arm_word::word_at;
use walker_arrays::access::{Access, Kind};
use walker_arrays::item::Item;
use walker_arrays::mode::Mode;
use walker_arrays::{Pile, Work, set_word, take, top};
use walker_operators::{diadic, monadic};
use x_program::table::{Row, row_at};

// Table, words, accesses and work are passed side by side, and not as one struct: a step's parameters say which of them it touches.

// ---- one thing to do ----

fn work_monadic(table: &[u32], pile: &mut Pile, r: u32) -> Mode
    ensures next { result ≡ Settling }
    ensures pile { pile.new ≡ operators.work_monadic (monadic_of (tables.word table.now r 1)) (top pile.old) ∷ rest pile.old }
{
    let x = take(pile);
    pile.push(monadic(row_at(table, r as usize).a, x));
    Mode::Settling
}

fn work_diadic(table: &[u32], pile: &mut Pile, r: u32) -> Mode
    ensures next { result ≡ Settling }
    ensures pile { pile.new
        ≡ operators.work_diadic (diadic_of (tables.word table.now r 1)) (top (rest pile.old)) (top pile.old) ∷ rest (rest pile.old) }
{
    let y = take(pile);
    let x = take(pile);
    pile.push(diadic(row_at(table, r as usize).a, x, y));
    Mode::Settling
}

// The declaration that row r names.
fn declaration(table: &[u32], r: u32) -> Row
    ensures { result ≡ tables.row_in table.now (tables.word table.now r 1) }
{
    row_at(table, row_at(table, r as usize).a as usize)
}

fn check_subscript(table: &[u32], pile: &Pile, r: u32) -> Mode
    ensures { result ≡ pick (ltb (top pile.now) (meaning.length_of table.now r)) Settling BadSubscript }
{
    if top(pile) < declaration(table, r).b {
        Mode::Settling
    } else {
        Mode::BadSubscript
    }
}

fn load(table: &[u32], words: &[u32], accesses: &mut [u32], work: &mut Work, r: u32) -> Mode
    ensures shown { (first : ℕ) (old : List ℕ) (x : State) → Faces table.now first old (meaning.load r) work.old words.now accesses.old x
        → Shows table.now first old result work.new words.now accesses.new x }
    ensures next { result ≡ Settling }
    ensures items { work.new.items ≡ work.old.items }
{
    let offset = declaration(table, r).a as usize + take(&mut work.pile) as usize;
    let w = word_at(words, offset);
    let loaded = Access {
        kind: Kind::Load,
        offset,
        old: w,
        new: w,
    };
    work.listing.list(accesses, loaded);
    work.pile.push(w);
    Mode::Settling
}

fn set_variable(table: &[u32], words: &mut [u32], pile: &mut Pile, r: u32) -> Mode
    ensures next { result ≡ Settling }
    ensures words { words.new ≡ set words.old (meaning.offset_of table.now r) (top pile.old) }
    ensures pile { pile.new ≡ rest pile.old }
{
    let w = take(pile);
    set_word(words, declaration(table, r).a as usize, w);
    Mode::Settling
}

fn store(table: &[u32], words: &mut [u32], accesses: &mut [u32], work: &mut Work, r: u32) -> Mode
    ensures shown { (first : ℕ) (old : List ℕ) (x : State) → Faces table.now first old (meaning.store r) work.old words.old accesses.old x
        → Shows table.now first old result work.new words.new accesses.new x }
    ensures next { result ≡ Settling }
    ensures items { work.new.items ≡ work.old.items }
{
    let w = take(&mut work.pile);
    let offset = declaration(table, r).a as usize + take(&mut work.pile) as usize;
    let stored = Access {
        kind: Kind::Store,
        offset,
        old: word_at(words, offset),
        new: w,
    };
    work.listing.list(accesses, stored);
    set_word(words, offset, w);
    Mode::Settling
}

fn choose(table: &[u32], pile: &mut Pile, r: u32) -> Mode
    ensures next { result ≡ AtRow (pick (eqb (top pile.old) 0) (tables.word table.now r 3) (tables.word table.now r 2)) }
    ensures pile { pile.new ≡ rest pile.old }
{
    let w = row_at(table, r as usize);
    Mode::AtRow(if take(pile) == 0 { w.c } else { w.b })
}

fn repeat(table: &[u32], work: &mut Work, r: u32) -> Mode
    ensures shown { (first : ℕ) (old words buffer : List ℕ) (x : State) → length work.old.items < 3072
        → Faces table.now first old (meaning.repeat r) work.old words buffer x → Shows table.now first old result work.new words buffer x }
    ensures items { result ≡ Settling → work.new.items ≡ work.old.items }
{
    if take(&mut work.pile) == 0 {
        return Mode::Settling;
    }
    work.items.push(Item::Begin(r));
    Mode::AtRow(row_at(table, r as usize).b)
}

// The first thing to do, if there is one.
pub fn act(table: &[u32], words: &mut [u32], accesses: &mut [u32], work: &mut Work) -> Mode
    ensures shown { (first : ℕ) (old : List ℕ) (x : State) → Shows table.now first old Settling work.old words.old accesses.old x
        → Shows table.now first old result work.new words.new accesses.new x }
    ensures lower { result ≡ Settling → length work.new.items < length work.old.items }
{
    let Some(item) = work.items.pop() else {
        return Mode::Finished;
    };
    match item {
        Item::Begin(r) => Mode::AtRow(r),
        Item::WorkMonadic(r) => work_monadic(table, &mut work.pile, r),
        Item::WorkDiadic(r) => work_diadic(table, &mut work.pile, r),
        Item::Check(r) => check_subscript(table, &work.pile, r),
        Item::Load(r) => load(table, words, accesses, work, r),
        Item::Set(r) => set_variable(table, words, &mut work.pile, r),
        Item::Store(r) => store(table, words, accesses, work, r),
        Item::Choose(r) => choose(table, &mut work.pile, r),
        Item::Repeat(r) => repeat(table, work, r),
    }
}
