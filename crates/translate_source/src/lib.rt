// The public translation: the front end into working memory, then the lent buffers, wholly written where the source is accepted, left alone where it is refused.
#![tactic(auto)]

ghost use Rattle.std.specs.Prelude.{◌≡◌, List, ℕ, ◌-◌, ◌*◌, ◌<◌, ◌≤◌, length};
ghost use Rattle.x_program.specs.Tree as tree;
ghost use Rattle.x_program.specs.Layout.{row_words};
ghost use Rattle.x_program.specs.Rows.{table_of, row_count};
ghost use Rattle.x_program.specs.TableReadBack.{Holds};
ghost use Rattle.x_program.specs.Sound.{Sound};
ghost use Rattle.x_program.specs.Table.{process_at};
ghost use Rattle.translate_rules.specs.ImageCode as rules;
ghost use Rattle.translate_emit_instructions.specs.Write.{Room};
ghost use Rattle.translate_image_values.specs.Well.{WellProcess};
ghost use Rattle.x_tokens.specs.Refusals.{number};
ghost use Rattle.x_verdict.specs.Front as front;
ghost use Rattle.translate_source.specs.Translate.{filled, left, translated, translation};
ghost use Rattle.translate_source.specs.Filled.{Parts};

use front_analysis::{Accepted, analyse};
use translate_buffers::{clear, copy};
use translate_image::image;
use x_program::row;
use x_tokens::refusal::Refusal;

// The answer: document 01's number and place, 0 and 0 where the source is accepted, and the counts, all 0 where it is refused.
// A record with a number and no Result, as C's out words (`gutilamboy_translate`) and the theorems (`Translates` of theorem_demands) have it.
#[derive(Clone, Copy)]
pub struct Translation {
    pub status: u32,
    pub place: u32,
    pub tokens: u32,
    pub rows: u32,
    pub data: u32,
    pub depth: u32,
    pub code: u32,
}

// A refusal: number and place. The buffers are lent to it for its promise: yesterday's table and image stay in them.
fn refuse(table: &mut [u32], code: &mut [u8], refusal: Refusal) -> Translation
    ensures { left result table.new code.new ≡ translated table.old code.old (front.refused (number refusal.reason) refusal.place) }
{
    // neither buffer is written to
    Translation {
        status: u32::from(refusal.reason),
        place: refusal.place,
        tokens: 0,
        rows: 0,
        data: 0,
        depth: 0,
        code: 0,
    }
}

// The first rows into the lent table, the rest of which is zeroed.
fn fill_table(rows: &[u32], count: usize, table: &mut [u32])
    requires { (count ≤ 1024) × ((row_words * count ≤ length rows.now) × (row_words * count ≤ length table.old)) }
    ensures { (xs : List ℕ) → length xs ≡ row_words * count → Holds rows.now 0 xs → table.new ≡ filled (length table.old) xs }
{
    copy(rows, table, row::WORDS * count);
    clear(table, row::WORDS * count);
}

// The image of the rows into the lent code buffer, the rest of which is zeroed.
fn fill_code(rows: &[u32], count: usize, code: &mut [u8]) -> usize
    requires { (0 < count) × (WellProcess rows.now (count - 1) × Room code.old 0 (rules.image_code (process_at rows.now (count - 1)))) }
    ensures { (q : tree.Program) → Sound q → Holds rows.now 0 (table_of q) → count ≡ row_count q → length (rules.image q) ≤ length code.old
        → (code.new ≡ filled (length code.old) (rules.image q)) × (result ≡ length (rules.image q)) }
{
    let end = image(rows, count, code);
    clear(code, end);
    end
}

// An accepted program: the rows that the table is to have stand in `rows`.
fn accept(rows: &[u32; 4096], accepted: Accepted, table: &mut [u32], code: &mut [u8]) -> Translation
    requires { (q : tree.Program) × Parts rows.now (length table.old) (length code.old) accepted.tokens accepted.rows accepted.words accepted.depth q }
    ensures { (q : tree.Program) → Parts rows.now (length table.old) (length code.old) accepted.tokens accepted.rows accepted.words accepted.depth q
        → left result table.new code.new ≡ translated table.old code.old (front.accepted accepted.tokens q) }
{
    fill_table(rows, accepted.rows, table);
    let end = fill_code(rows, accepted.rows, code);
    Translation {
        status: 0,
        place: 0,
        tokens: accepted.tokens as u32,
        rows: accepted.rows as u32,
        data: accepted.words,
        depth: accepted.depth as u32,
        code: end as u32,
    }
}

// A source, a lent table of words and a lent code buffer of bytes. No heap; working arrays of 30 KB, and the stack that the recursion
// over nested parts takes (docs/BENCHMARKS.md). Nothing is written to the lent buffers unless the source is accepted.
pub fn translate(source: &[u8], table: &mut [u32], code: &mut [u8]) -> Translation
    ensures { left result table.new code.new ≡ translation source.now table.old code.old }
{
    let mut rows: [u32; 4096] = [0; 4096];
    match analyse(source, table.len(), code.len(), &mut rows) {
        Err(refusal) => refuse(table, code, refusal),
        Ok(accepted) => accept(&rows, accepted, table, code),
    }
}
