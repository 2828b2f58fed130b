// The kinds of tokens, by number: see specs/Kinds.antt. Numbers, not an enum: `x_tokens::tokens`, which the docs name, fills arrays of them,
// and an operator's kind is reckoned from its number in the syntax table (OPERATOR_BASE).
pub const NUMBER: u8 = 1;

pub const NAME: u8 = 2;

pub const COMMENT: u8 = 3;

pub const OPEN_BRACKET: u8 = 4;

pub const CLOSE_BRACKET: u8 = 5;

pub const OPEN_SUBSCRIPT: u8 = 6;

pub const CLOSE_SUBSCRIPT: u8 = 7;

pub const OPEN_BRACE: u8 = 8;

pub const CLOSE_BRACE: u8 = 9;

pub const SEMICOLON: u8 = 10;

pub const COMMA: u8 = 11;

pub const BECOMES: u8 = 12;

pub const VAR: u8 = 13;

pub const ARRAY: u8 = 14;

pub const VAL: u8 = 15;

pub const SKIP: u8 = 16;

pub const STOP: u8 = 17;

pub const IF: u8 = 18;

pub const THEN: u8 = 19;

pub const ELSE: u8 = 20;

pub const WHILE: u8 = 21;

pub const DO: u8 = 22;

pub const NOT: u8 = 23;

pub const PROC: u8 = 24;

pub const FUNC: u8 = 25;

pub const VALOF: u8 = 26;

pub const RETURN: u8 = 27;

pub const IS: u8 = 28;

// An operator's kind is this much more than its number in the syntax table.
pub const OPERATOR_BASE: u32 = 30;

pub const PLUS: u8 = 31;

pub const MINUS: u8 = 32;

pub const TIMES: u8 = 33;

pub const AND: u8 = 34;

pub const OR: u8 = 35;

pub const XOR: u8 = 36;

pub const SHIFT_RIGHT: u8 = 37;

pub const SHIFT_LEFT: u8 = 38;

pub const EQUAL: u8 = 39;

pub const UNEQUAL: u8 = 40;

pub const LESS: u8 = 41;

pub const AT_MOST: u8 = 42;

pub const GREATER: u8 = 43;

pub const AT_LEAST: u8 = 44;
