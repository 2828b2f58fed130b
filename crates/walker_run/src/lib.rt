// The walker of request 2026-01: a syntax table run row by row over lent words, without recursion and in constant memory.
#![tactic(auto)]

ghost use Rattle.std.specs.Prelude.{◌≡◌, List, ℕ, ◌+◌, ◌-◌, ◌<◌, ◌≤◌, length};
ghost use Rattle.arm_word.specs.Access.{Access};
ghost use Rattle.x_program.specs.ValidTable as rules;
ghost use Rattle.x_program.specs.FittingRows.{Valid};
ghost use Rattle.x_meaning.specs.TableRun as meaning;
ghost use Rattle.x_meaning.specs.TableRun.{State};
ghost use Rattle.walker_arrays.specs.declared.mode.Mode.TheVariants.{Settling, AtRow};
ghost use Rattle.walker_arrays.specs.WorkingArrays.{to_do, comes_to, Shows};
ghost use Rattle.walker_run.specs.Handed.{left, left_of, left_by_walk};
ghost use Rattle.walker_run.specs.Opening.{process_begun};
ghost use Rattle.walker_run.specs.Walking as walking;

use arm_word::word_at;
use walker_arrays::access::Listing;
use walker_arrays::item::Item;
use walker_arrays::mode::Mode;
use walker_arrays::stack::Stack;
use walker_arrays::{Items, Work};
use walker_check::check;
use walker_items::act;
use x_program::row;
use x_program::table::{Row, row_at};

// Why a table isn't run, by the requests' numbers.
#[derive(Clone, Copy)]
enum Refusal {
    ShortMemory = 33,
    BadTable = 36,
}

// As of the machine's run: 0 where the limit was reached, 1 and the number of the end, or a refusal; then the rows that were begun and the accesses that were made.
// Numbers, since C gets them: `walk_call` (gutilamboy_walker/specs/WalkCall) and `Demand5` speak of them.
#[derive(Clone, Copy)]
pub struct Walked {
    pub status: u32,
    pub number: u32,
    pub steps: u64,
    pub accesses: u64,
}

// What is to do up to the next row that is begun, or the end. The four stand side by side here and below, for the reason in walker_items.
fn settle(
    table: &[u32],
    words: &mut [u32],
    accesses: &mut [u32],
    work: &mut Work,
    opened: Mode,
) -> Mode
    ensures shown { (first : ℕ) (old : List ℕ) (x : State) → Shows table.now first old opened work.old words.old accesses.old x
        → Shows table.now first old result work.new words.new accesses.new x }
    ensures settled { result ≡ Settling → ⊥ }
{
    let mut mode = opened;
    // As often as a row asks for: nothing is counted.
    while let Mode::Settling = mode {
        mode = act(table, words, accesses, work);
    }
    mode
}

// ---- a row is begun ----

// Row r, whose words are those of w, and which is no value's.
#[tactic(auto, using(crate::specs::Opening::processes))]
fn open_process(items: &mut Items, w: Row, r: u32) -> Mode
    ensures { (t pile words : List ℕ) (l : List Access) → length items.old + 3 ≤ 3072
        → comes_to t result items.new pile words l ≡ process_begun t r w words l (to_do items.old) pile }
{
    match w.kind {
        row::SKIP => Mode::Settling,
        row::STOP => Mode::Stopped,
        row::ASSIGN => {
            items.push(Item::Set(r));
            Mode::AtRow(w.b)
        }
        row::ASSIGN_ELEMENT => {
            items.push(Item::Store(r));
            items.push(Item::Begin(w.c));
            items.push(Item::Check(r));
            Mode::AtRow(w.b)
        }
        row::SEQUENCE => {
            items.push(Item::Begin(w.b));
            Mode::AtRow(w.a)
        }
        row::IF => {
            items.push(Item::Choose(r));
            Mode::AtRow(w.a)
        }
        _ => {
            items.push(Item::Repeat(r));
            Mode::AtRow(w.a)
        }
    }
}

// Row r.
fn open(table: &[u32], words: &[u32], work: &mut Work, r: u32) -> Mode
    ensures { (first : ℕ) (old buffer : List ℕ) (x : State) → length work.old.items + 3 ≤ 3072 → length work.old.pile < 3072
        → Shows table.now first old (AtRow r) work.old words.now buffer x
        → Shows table.now first old result work.new words.now buffer (meaning.turn table.now x) }
{
    let w = row_at(table, r as usize);
    match w.kind {
        row::NUMBER => {
            work.pile.push(w.a);
            Mode::Settling
        }
        row::VARIABLE => {
            let offset = row_at(table, w.a as usize).a;
            work.pile.push(word_at(words, offset as usize));
            Mode::Settling
        }
        row::ELEMENT => {
            work.items.push(Item::Load(r));
            work.items.push(Item::Check(r));
            Mode::AtRow(w.b)
        }
        row::MONADIC => {
            work.items.push(Item::WorkMonadic(r));
            Mode::AtRow(w.b)
        }
        row::DIADIC => {
            work.items.push(Item::WorkDiadic(r));
            work.items.push(Item::Begin(w.c));
            Mode::AtRow(w.b)
        }
        _ => open_process(&mut work.items, w, r),
    }
}

// Row r is begun, and what is to do up to the row after it is done.
fn turn(table: &[u32], words: &mut [u32], accesses: &mut [u32], work: &mut Work, r: u32) -> Mode
    ensures shown { (first : ℕ) (old : List ℕ) (x : State) → length work.old.items + 3 ≤ 3072 → length work.old.pile < 3072
        → Shows table.now first old (AtRow r) work.old words.old accesses.old x
        → Shows table.now first old result work.new words.new accesses.new (meaning.turn table.now x) }
    ensures settled { result ≡ Settling → ⊥ }
{
    let opened = open(table, words, work, r);
    settle(table, words, accesses, work, opened)
}

// ---- the walk ----

// Finish is 0, stop 1, bad subscript 2.
fn end_number(mode: Mode) -> u32
    ensures { result ≡ walking.end_number mode }
{
    match mode {
        Mode::Finished => 0,
        Mode::Stopped => 1,
        _ => 2,
    }
}

// The answer, after so many rows and accesses.
fn answer(mode: Mode, steps: u64, accesses: u64) -> Walked
    ensures { result ≡ walking.answer_by mode steps accesses }
{
    let (status, number) = match mode {
        Mode::AtRow(_) => (0, 0),
        _ => (1, end_number(mode)),
    };
    Walked {
        status,
        number,
        steps,
        accesses,
    }
}

// The last row, which is the program.
fn last_row(table: &[u32]) -> u32
    ensures { rules.rows_in table.now ≤ 1024 → result ≡ rules.rows_in table.now - 1 }
{
    ((table.len() / row::WORDS).saturating_sub(1) % 0x1_0000_0000) as u32
}

// Row after row: a table of 1,024 rows never has more to do at a time than there is room for, nor more words on the pile.
fn run(table: &[u32], words: &mut [u32], limit: u64, accesses: &mut [u32], first: u64) -> Walked
    ensures { Valid table.now
        → left result words.new accesses.new
        ≡ left_of first accesses.old (meaning.walk_from limit 0 table.now (meaning.first table.now words.old)) }
{
    let mut work = Work {
        items: Stack::empty(Item::Begin(0)),
        pile: Stack::empty(0),
        listing: Listing { first, total: 0 },
    };
    let mut mode = Mode::AtRow(last_row(table));
    for steps in 0..limit {
        let Mode::AtRow(r) = mode else {
            return answer(mode, steps, work.listing.total);
        };
        mode = turn(table, words, accesses, &mut work, r);
    }
    answer(mode, limit, work.listing.total)
}

fn refused(why: Refusal) -> Walked
    ensures { result ≡ record { status = walking.refusal_number why; number = 0; steps = 0; accesses = 0 } }
{
    Walked {
        status: why as u32,
        number: 0,
        steps: 0,
        accesses: 0,
    }
}

// A table, lent words, the most rows that are begun, a lent buffer for accesses and the number of the access that it begins with.
// No heap, no recursion; working arrays of 36 KB.
pub fn walk(
    table: &[u32],
    memory: &mut [u32],
    limit: u64,
    accesses: &mut [u32],
    first: u64,
) -> Walked
    ensures { left result memory.new accesses.new ≡ left_by_walk limit first table.now memory.old accesses.old }
{
    let Some(n) = check(table) else {
        return refused(Refusal::BadTable);
    };
    let data = n as usize;
    if memory.len() < data {
        return refused(Refusal::ShortMemory);
    }
    run(table, &mut memory[..data], limit, accesses, first)
}
