// Resolved programs: see specs/. Here the numbers of their table, and how a row is read, for the code that reads and writes it.
#![tactic(auto)]

pub mod operator;
pub mod row;
pub mod table;

// What a word of a row is, by the row's kind. See specs/ValidTable.antt.
#[derive(Clone, Copy)]
pub enum Field {
    Unknown,
    Variable,
    Array,
    Value,
    Process,
    Monadic,
    Diadic,
    Offset,
    One,
    Length,
    Word,
    Unused,
}

// The words a, b and c of a row.
#[derive(Clone, Copy)]
pub struct Shape {
    pub a: Field,
    pub b: Field,
    pub c: Field,
}
