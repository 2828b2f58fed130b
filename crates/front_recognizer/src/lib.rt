// The grammar's automaton without its trees, its stack in the working table: which token no program continues with, and whether the program is too deep, in constant memory.
#![tactic(auto)]

pub mod mark;
pub mod mode;

ghost use Rattle.std.specs.Prelude.{◌≡◌, ℕ, ◌+◌, ◌<◌, ◌≤◌, List, length};
ghost use Rattle.x_grammar.specs.Automaton.{reads};
ghost use Rattle.x_grammar.specs.TokenArrays.{unread};
ghost use Rattle.front_recognizer.specs.Pushdown as rules;
ghost use Rattle.front_recognizer.specs.Stack.{viewed};
ghost use Rattle.front_recognizer.specs.Recognized.{Says, refused_at, ended};

use crate::mark::Mark;
use crate::mode::Mode;
use front_read_expressions::{Ungrammatical, is_diadic, is_monadic, put};
use x_program::table::row_at;
use x_spelling::kind;

// How far levels are counted: the limit of depth.
const LEVELS: u32 = 32;

// The operator before an operand: none, a monadic one, or a chain's, as 2 more than its kind.
// A number and no enum: it is kept in a frame's word in the table, and an enum that holds the kind reads back
// from a word (frames_pushed of specs/Stack) only with a bound on the kind that each frame would have to carry.
const NO_OPERATOR: u32 = 0;

const AFTER_MONADIC: u32 = 1;

const CHAIN: u32 = 2;

const CHAIN_OF_PLUS: u32 = kind::PLUS as u32 + CHAIN;

const CHAIN_OF_TIMES: u32 = kind::TIMES as u32 + CHAIN;

const CHAIN_OF_XOR: u32 = kind::XOR as u32 + CHAIN;

// What is open, by its mark; the operator before it, and the level outside.
#[derive(Clone, Copy)]
pub struct Frame {
    pub mark: Mark,
    pub operator: u32,
    pub level: u32,
}

// What a token does: the next mode, operator and level, whether a frame is popped, and which one is pushed.
#[derive(Clone, Copy)]
pub struct Action {
    pub mode: Mode,
    pub operator: u32,
    pub level: u32,
    pub pops: bool,
    pub pushed: Option<Frame>,
}

// The automaton's control, and the number of frames in the table.
#[derive(Clone, Copy)]
pub struct Control {
    pub mode: Mode,
    pub operator: u32,
    pub level: u32,
    pub height: usize,
}

// What the tokens are instead of a program that nests within the limit: a program that is too deep, or none.
#[derive(Clone, Copy)]
pub enum Fault {
    Deep,
    Ungrammatical(Ungrammatical),
}

// One level more, up to the limit.
fn deeper(level: u32) -> u32
    ensures { result ≡ rules.deeper level }
{
    if level < LEVELS { level + 1 } else { LEVELS }
}

// The stack stays as it is.
fn stay(mode: Mode, operator: u32, level: u32) -> Action
    ensures { result ≡ rules.stay mode operator level }
{
    Action {
        mode,
        operator,
        level,
        pops: false,
        pushed: None,
    }
}

// The innermost frame goes.
fn leave(mode: Mode, operator: u32, level: u32) -> Action
    ensures { result ≡ rules.leave mode operator level }
{
    Action {
        pops: true,
        ..stay(mode, operator, level)
    }
}

// A frame is pushed.
fn enter(mode: Mode, level: u32, mark: Mark, operator: u32, below: u32) -> Action
    ensures { result ≡ rules.enter mode level mark operator below }
{
    Action {
        mode,
        operator: 0,
        level,
        pops: false,
        pushed: Some(Frame {
            mark,
            operator,
            level: below,
        }),
    }
}

// The condition of an if ends: its frame becomes that of the then part.
fn choose(level: u32) -> Action
    ensures { result ≡ rules.choose level }
{
    Action {
        mode: Mode::NeedProcess,
        operator: 0,
        level: deeper(level),
        pops: true,
        pushed: Some(Frame {
            mark: Mark::Then,
            operator: 0,
            level,
        }),
    }
}

fn refuse() -> Action
    ensures { result ≡ rules.refuse }
{
    stay(Mode::Refused, 0, 0)
}

// If the token is of kind `want`.
fn expect(k: u8, want: u8, then: Action) -> Action
    ensures { result ≡ rules.expect k want then }
{
    if k == want {
        return then;
    }
    refuse()
}

// After a whole process the innermost frame decides: then, or braces.
fn after_process(f: Frame, k: u8) -> Action
    ensures { result ≡ rules.after_process f k }
{
    match f.mark {
        Mark::Then => expect(k, kind::ELSE, leave(Mode::NeedProcess, 0, deeper(f.level))),
        Mark::Braces => {
            if k == kind::SEMICOLON {
                return stay(Mode::NeedProcess, 0, deeper(f.level));
            }
            expect(k, kind::CLOSE_BRACE, leave(Mode::HaveProcess, 0, 0))
        }
        _ => refuse(),
    }
}

// After a whole expression: a target's subscript, a condition, brackets, a subscript; else it was assigned.
fn after_expression(f: Frame, k: u8) -> Action
    ensures { result ≡ rules.after_expression f k }
{
    match f.mark {
        Mark::Target => expect(
            k,
            kind::CLOSE_SUBSCRIPT,
            leave(Mode::TargetElement, 0, f.level),
        ),
        Mark::If => expect(k, kind::THEN, choose(f.level)),
        Mark::While => expect(k, kind::DO, leave(Mode::NeedProcess, 0, deeper(f.level))),
        Mark::Brackets => expect(
            k,
            kind::CLOSE_BRACKET,
            leave(Mode::HaveOperand, f.operator, f.level),
        ),
        Mark::Subscript => expect(
            k,
            kind::CLOSE_SUBSCRIPT,
            leave(Mode::HaveOperand, f.operator, f.level),
        ),
        _ => after_process(f, k),
    }
}

// The chain that o stands for goes on with a token of kind k.
fn links(o: u32, k: u8) -> bool
    ensures { result ≡ rules.links o k }
{
    match o {
        CHAIN_OF_PLUS | CHAIN_OF_TIMES..=CHAIN_OF_XOR => u32::from(k) == o - CHAIN,
        _ => false,
    }
}

// After a whole operand, which stood behind the operator o.
fn after_operand(o: u32, level: u32, f: Frame, k: u8) -> Action
    ensures { result ≡ rules.after_operand o level f k }
{
    if o == NO_OPERATOR {
        if is_diadic(k) {
            return stay(Mode::NeedOperand, u32::from(k) + CHAIN, deeper(level));
        }
        return after_expression(f, k);
    }
    if links(o, k) {
        return stay(Mode::NeedOperand, o, deeper(level));
    }
    after_expression(f, k)
}

fn start_operand(o: u32, level: u32, k: u8) -> Action
    ensures { result ≡ rules.start_operand o level k }
{
    match k {
        kind::NUMBER => stay(Mode::HaveOperand, o, level),
        kind::NAME => stay(Mode::NameRead, o, level),
        _ => expect(
            k,
            kind::OPEN_BRACKET,
            enter(
                Mode::NeedExpression,
                deeper(level),
                Mark::Brackets,
                o,
                level,
            ),
        ),
    }
}

fn start_expression(level: u32, k: u8) -> Action
    ensures { result ≡ rules.start_expression level k }
{
    if is_monadic(k) {
        return stay(Mode::NeedOperand, AFTER_MONADIC, deeper(level));
    }
    start_operand(NO_OPERATOR, level, k)
}

fn start_process(level: u32, k: u8) -> Action
    ensures { result ≡ rules.start_process level k }
{
    match k {
        kind::NAME => stay(Mode::Target, 0, level),
        kind::SKIP | kind::STOP => stay(Mode::HaveProcess, 0, 0),
        kind::OPEN_BRACE => enter(Mode::BraceOpened, level, Mark::Braces, NO_OPERATOR, level),
        kind::IF => enter(Mode::NeedExpression, 0, Mark::If, NO_OPERATOR, level),
        kind::WHILE => enter(Mode::NeedExpression, 0, Mark::While, NO_OPERATOR, level),
        _ => expect(k, kind::COMMENT, stay(Mode::NeedProcess, 0, level)),
    }
}

// A constant of a specification: a number or a name.
fn expect_constant(k: u8, mode: Mode) -> Action
    ensures { result ≡ rules.expect_constant k mode }
{
    match k {
        kind::NUMBER | kind::NAME => stay(mode, 0, 0),
        _ => refuse(),
    }
}

// At the front: a comment, a specification or the process.
fn start_program(k: u8) -> Action
    ensures { result ≡ rules.start_program k }
{
    match k {
        kind::COMMENT => stay(Mode::Front, 0, 0),
        kind::VAR => stay(Mode::VarRead, 0, 0),
        kind::ARRAY => stay(Mode::ArrayRead, 0, 0),
        kind::VAL => stay(Mode::ValRead, 0, 0),
        _ => start_process(0, k),
    }
}

// After an opening brace: it closes, or the first process of a list starts.
fn after_brace(level: u32, k: u8) -> Action
    ensures { result ≡ rules.after_brace level k }
{
    if k == kind::CLOSE_BRACE {
        return leave(Mode::HaveProcess, 0, 0);
    }
    start_process(deeper(level), k)
}

// After the name that a process assigns to.
fn after_target(level: u32, k: u8) -> Action
    ensures { result ≡ rules.after_target level k }
{
    if k == kind::BECOMES {
        return stay(Mode::NeedExpression, 0, 0);
    }
    expect(
        k,
        kind::OPEN_SUBSCRIPT,
        enter(Mode::NeedExpression, 1, Mark::Target, NO_OPERATOR, level),
    )
}

// After a name that is an operand, or the name of an element.
fn after_name(o: u32, level: u32, f: Frame, k: u8) -> Action
    ensures { result ≡ rules.after_name o level f k }
{
    if k == kind::OPEN_SUBSCRIPT {
        return enter(
            Mode::NeedExpression,
            deeper(level),
            Mark::Subscript,
            o,
            level,
        );
    }
    after_operand(o, level, f, k)
}

// What a token of kind k does, f the innermost frame.
fn decide(mode: Mode, o: u32, level: u32, f: Frame, k: u8) -> Action
    ensures { result ≡ rules.decide mode o level f k }
{
    match mode {
        Mode::Front => start_program(k),
        Mode::VarRead => expect(k, kind::NAME, stay(Mode::Specified, 0, 0)),
        Mode::ArrayRead => expect(k, kind::NAME, stay(Mode::ArrayNamed, 0, 0)),
        Mode::ArrayNamed => expect(k, kind::OPEN_SUBSCRIPT, stay(Mode::ArrayOpened, 0, 0)),
        Mode::ArrayOpened => expect_constant(k, Mode::ArraySized),
        Mode::ArraySized => expect(k, kind::CLOSE_SUBSCRIPT, stay(Mode::Specified, 0, 0)),
        Mode::ValRead => expect(k, kind::NAME, stay(Mode::ValNamed, 0, 0)),
        Mode::ValNamed => expect(k, kind::EQUAL, stay(Mode::ValEquated, 0, 0)),
        Mode::ValEquated => expect_constant(k, Mode::Specified),
        Mode::Specified => expect(k, kind::SEMICOLON, stay(Mode::Front, 0, 0)),
        Mode::NeedProcess => start_process(level, k),
        Mode::BraceOpened => after_brace(level, k),
        Mode::Target => after_target(level, k),
        Mode::TargetElement => expect(k, kind::BECOMES, stay(Mode::NeedExpression, 0, 0)),
        Mode::HaveProcess => after_process(f, k),
        Mode::NeedExpression => start_expression(level, k),
        Mode::NeedOperand => start_operand(o, level, k),
        Mode::NameRead => after_name(o, level, f, k),
        Mode::HaveOperand | Mode::Refused => after_operand(o, level, f, k),
    }
}

// The frame where nothing is open: a mark of its own and no Option, so that what follows a part is one match over the mark.
fn no_frame() -> Frame
    ensures { result ≡ rules.no_frame }
{
    Frame {
        mark: Mark::Nothing,
        operator: 0,
        level: 0,
    }
}

// The innermost of the frames in the table, or none.
fn innermost(table: &[u32; 4096], height: usize) -> Frame
    requires { height ≤ 1024 }
    ensures { result ≡ rules.innermost (rules.frames table.now height) }
{
    if height == 0 {
        return no_frame();
    }
    let w = row_at(table, height - 1);
    Frame {
        mark: Mark::from(w.kind),
        operator: w.a,
        level: w.b,
    }
}

// The number of frames that are left where an action pops or not.
fn popped(height: usize, pops: bool) -> usize
    ensures { result ≡ rules.popped height pops }
{
    if pops {
        height.saturating_sub(1)
    } else {
        height
    }
}

// The stack after an action.
fn apply(table: &mut [u32; 4096], height: usize, a: Action) -> Control
    requires { height < 1024 }
    ensures { (viewed table.new result ≡ rules.act a (rules.frames table.old height)) × (result.height ≤ height + 1) }
{
    let mut h = popped(height, a.pops);
    if let Some(f) = a.pushed {
        put(table, h, u32::from(f.mark), f.operator, f.level, 0);
        h += 1;
    }
    Control {
        mode: a.mode,
        operator: a.operator,
        level: a.level,
        height: h,
    }
}

// The control after a token of kind k.
fn advance(table: &mut [u32; 4096], c: Control, k: u8) -> Control
    requires { c.height < 1024 }
    ensures { (viewed table.new result ≡ rules.advance (viewed table.old c) k) × (result.height ≤ c.height + 1) }
{
    let height = c.height;
    let f = innermost(table, height);
    let a = decide(c.mode, c.operator, c.level, f, k);
    apply(table, height, a)
}

// Whether the limit was reached.
fn deep_by(deep: bool, level: u32) -> bool
    ensures { result ≡ rules.deep_by deep level }
{
    deep || level == LEVELS
}

// Whether a program can end in this mode, where nothing is open.
fn ends_in(mode: Mode) -> bool
    ensures { result ≡ rules.ends_in mode }
{
    matches!(
        mode,
        Mode::HaveProcess | Mode::NameRead | Mode::HaveOperand | Mode::Refused
    )
}

// Whether a program ends here.
fn complete(mode: Mode, height: usize) -> bool
    ensures { result ≡ rules.ends_at mode height }
{
    height == 0 && ends_in(mode)
}

// Refused at token i.
fn refused_at(i: usize) -> Result<(), Fault>
    ensures { result ≡ refused_at i }
{
    Err(Fault::Ungrammatical(Ungrammatical { token: i }))
}

// The answer where no token is left, of n.
fn at_end(complete: bool, deep: bool, n: usize) -> Result<(), Fault>
    ensures { result ≡ ended complete deep n }
{
    if !complete {
        return refused_at(n);
    }
    if deep {
        return Err(Fault::Deep);
    }
    Ok(())
}

// Whether the tokens are a program, and where not; the table is the stack.
// Open: what it leaves in the table.
pub fn recognize(kinds: &[u8], table: &mut [u32; 4096]) -> Result<(), Fault>
    requires { length kinds.now ≤ 1024 }
    ensures { (values : List ℕ) → Says (length kinds.now) (reads (unread kinds.now values 0)) result }
{
    let mut c = Control {
        mode: Mode::Front,
        operator: 0,
        level: 0,
        height: 0,
    };
    let mut deep = false;
    for (i, k) in kinds.iter().enumerate() {
        c = advance(table, c, *k);
        if let Mode::Refused = c.mode {
            return refused_at(i);
        }
        deep = deep_by(deep, c.level);
    }
    at_end(complete(c.mode, c.height), deep, kinds.len())
}
