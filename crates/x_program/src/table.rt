// How a row of a syntax table is read.
ghost use Rattle.std.specs.Prelude.{◌≡◌};
ghost use Rattle.x_program.specs.Table.{row_in};

use crate::row;
use arm_word::word_at;

// A row's four words.
#[derive(Clone, Copy, Default)]
pub struct Row {
    pub kind: u32,
    pub a: u32,
    pub b: u32,
    pub c: u32,
}

// Row r of a table; words past its end are 0.
pub fn row_at(table: &[u32], r: usize) -> Row
    ensures { result ≡ row_in table.now r }
{
    if table.len() <= r {
        return Row::default();
    }
    let at = row::WORDS * r;
    Row {
        kind: word_at(table, at),
        a: word_at(table, at + 1),
        b: word_at(table, at + 2),
        c: word_at(table, at + 3),
    }
}
