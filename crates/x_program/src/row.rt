// The syntax table's rows: their words, and their kinds by number. See specs/Layout.antt. Numbers and no enum: a kind is a word of a table that C lends,
// and the definitions say for every word what a reader does with it. A reader's match on these numbers is already the conversion; an enum would put another before it.
pub const WORDS: usize = 4;

pub const VAR: u32 = 1;

pub const ARRAY: u32 = 2;

pub const NUMBER: u32 = 3;

pub const VARIABLE: u32 = 4;

pub const ELEMENT: u32 = 5;

pub const MONADIC: u32 = 6;

pub const DIADIC: u32 = 7;

pub const SKIP: u32 = 8;

pub const STOP: u32 = 9;

pub const ASSIGN: u32 = 10;

pub const ASSIGN_ELEMENT: u32 = 11;

pub const SEQUENCE: u32 = 12;

pub const IF: u32 = 13;

pub const WHILE: u32 = 14;
