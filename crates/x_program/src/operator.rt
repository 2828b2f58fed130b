// The operators' numbers in the syntax table, monadic and diadic. See specs/Rows.antt. Numbers and no enums, as the kinds of rows (row.rt): `diadic_of` of
// specs/Table.antt takes any word for an operator.
pub const NEGATE: u32 = 1;

pub const INVERT: u32 = 2;

pub const PLUS: u32 = 1;

pub const MINUS: u32 = 2;

pub const TIMES: u32 = 3;

pub const AND: u32 = 4;

pub const OR: u32 = 5;

pub const XOR: u32 = 6;

pub const SHIFT_RIGHT: u32 = 7;

pub const SHIFT_LEFT: u32 = 8;

pub const EQUAL: u32 = 9;

pub const UNEQUAL: u32 = 10;

pub const LESS: u32 = 11;

pub const AT_MOST: u32 = 12;

pub const GREATER: u32 = 13;

pub const AT_LEAST: u32 = 14;
