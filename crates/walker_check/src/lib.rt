// Request 2026-01's number 36: whether a syntax table can be run, and its words of data.
#![tactic(auto)]

ghost use Rattle.std.specs.Prelude.{◌≡◌, ◌≤◌};
ghost use Rattle.x_program.specs.ValidTable as rules;
ghost use Rattle.walker_check.specs.TableCheck.{words_fit, words_of, counted, ends_in_process, checked};

use x_program::table::{Row, row_at};
use x_program::{Field, Shape, row};

// The most rows and words of data that a table may have, and the longest array.
const ROWS: usize = 1024;

const DATA: u32 = 8192;

const LENGTH: u32 = 8192;

// How many operators there are.
const MONADIC: u32 = 2;

const DIADIC: u32 = 14;

fn shaped(a: Field, b: Field, c: Field) -> Shape
    ensures { result ≡ rules.shaped a b c }
{
    Shape { a, b, c }
}

// What the words of a row are.
#[tactic(auto, unfolding(x_program::specs::ValidTable::shape, x_program::specs::ValidTable::process_shape))]
fn shape(kind: u32) -> Shape
    ensures { result ≡ rules.shape kind }
{
    match kind {
        row::VAR => shaped(Field::Offset, Field::One, Field::Unused),
        row::ARRAY => shaped(Field::Offset, Field::Length, Field::Unused),
        row::NUMBER => shaped(Field::Word, Field::Unused, Field::Unused),
        row::VARIABLE => shaped(Field::Variable, Field::Unused, Field::Unused),
        row::ELEMENT => shaped(Field::Array, Field::Value, Field::Unused),
        row::MONADIC => shaped(Field::Monadic, Field::Value, Field::Unused),
        row::DIADIC => shaped(Field::Diadic, Field::Value, Field::Value),
        row::SKIP | row::STOP => shaped(Field::Unused, Field::Unused, Field::Unused),
        row::ASSIGN => shaped(Field::Variable, Field::Value, Field::Unused),
        row::ASSIGN_ELEMENT => shaped(Field::Array, Field::Value, Field::Value),
        row::SEQUENCE => shaped(Field::Process, Field::Process, Field::Unused),
        row::IF => shaped(Field::Value, Field::Process, Field::Process),
        row::WHILE => shaped(Field::Value, Field::Process, Field::Unused),
        _ => shaped(Field::Unknown, Field::Unknown, Field::Unknown),
    }
}

// Row s stands before row r, and its kind is from `low` to `high`.
fn earlier(table: &[u32], r: usize, s: u32, low: u32, high: u32) -> bool
    ensures { result ≡ rules.earlier table.now r s low high }
{
    let n = s as usize;
    n < r && (low..=high).contains(&row_at(table, n).kind)
}

// Word w of row r is what it should be, `before` words being declared before the row.
fn fits(table: &[u32], r: usize, before: u32, field: Field, w: u32) -> bool
    ensures { result ≡ rules.fits table.now r before field w }
{
    match field {
        Field::Unknown => false,
        Field::Variable => earlier(table, r, w, row::VAR, row::VAR),
        Field::Array => earlier(table, r, w, row::ARRAY, row::ARRAY),
        Field::Value => earlier(table, r, w, row::NUMBER, row::DIADIC),
        Field::Process => earlier(table, r, w, row::SKIP, row::WHILE),
        Field::Monadic => (1..=MONADIC).contains(&w),
        Field::Diadic => (1..=DIADIC).contains(&w),
        Field::Offset => w == before,
        Field::One => w == 1,
        Field::Length => (1..=LENGTH).contains(&w),
        Field::Word => true,
        Field::Unused => w == 0,
    }
}

// Row r, whose words are those of w, is as document 01's row rules say.
fn row_fits(table: &[u32], r: usize, before: u32, w: Row) -> bool
    ensures { result ≡ words_fit table.now r before w }
{
    let s = shape(w.kind);
    fits(table, r, before, s.a, w.a)
        && fits(table, r, before, s.b, w.b)
        && fits(table, r, before, s.c, w.c)
}

// The words that a row declares.
fn declared(w: Row) -> u32
    ensures { result ≡ words_of w }
{
    match w.kind {
        row::VAR | row::ARRAY => w.b,
        _ => 0,
    }
}

// The first n rows, each as it should be: how many words they declare.
#[tactic(auto, using(crate::specs::TableCheckLaws::row_by_row))]
fn rows_fit(table: &[u32], n: usize) -> Option<u32>
    requires { n ≤ 1024 }
    ensures { result ≡ counted table.now n }
{
    let mut data: u32 = 0;
    for r in 0..n {
        let w = row_at(table, r);
        if !row_fits(table, r, data, w) {
            return None;
        }
        data += declared(w);
    }
    Some(data)
}

// The last of n rows is a process.
fn ends_in_process(table: &[u32], n: usize) -> bool
    ensures { result ≡ ends_in_process table.now n }
{
    0 < n && (row::SKIP..=row::WHILE).contains(&row_at(table, n - 1).kind)
}

// The words of data of a table that 36 doesn't refuse.
#[tactic(auto, using(crate::specs::TableCheckLaws::refusals))]
pub fn check(table: &[u32]) -> Option<u32>
    ensures { result ≡ checked table.now }
{
    let n = table.len() / row::WORDS;
    if table.len() % row::WORDS != 0 || ROWS < n || !ends_in_process(table, n) {
        return None;
    }
    let data = rows_fit(table, n)?;
    if DATA < data {
        return None;
    }
    Some(data)
}
