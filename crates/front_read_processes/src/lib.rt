// A reader of processes by recursive descent, which writes the raw rows of what it reads as they complete.
#![tactic(auto)]

ghost use Rattle.std.specs.Prelude.{◌≡◌, ◌+◌, ◌<◌, ◌≤◌, length, get_or};
ghost use Rattle.x_spelling.specs.Kinds as token_kinds;
ghost use Rattle.front_read_expressions.specs.Reads.{Reads, Fit};
ghost use Rattle.front_read_processes.specs.Forms.{process_form, list_form, Comments};
ghost use Rattle.front_read_processes.specs.Lists.{Kept, joints};

use front_read_expressions::{
    Extent, Ungrammatical, add_row, add_row_of_two, close, deepen, expression, kind_at, put,
};
use x_program::row;
use x_spelling::kind;
use x_tokens::TokenArrays;

// `n [ e ] := e` at token i.
fn element_assignment(
    tokens: TokenArrays,
    table: &mut [u32; 4096],
    n: usize,
    i: usize,
) -> Result<Extent, Ungrammatical>
    requires { (Fit tokens.kinds.now tokens.values.now n i) × (get_or tokens.kinds.now i 0 ≡ token_kinds.name) × (get_or tokens.kinds.now (i + 1) 0 ≡ token_kinds.open_subscript) }
    ensures { Reads process_form tokens.entry.kinds.now tokens.entry.values.now i n table.old result table.new }
{
    let e = expression(tokens, table, n, i + 2)?;
    let subscript = close(tokens.kinds, Ok(e), kind::CLOSE_SUBSCRIPT);
    let target = close(tokens.kinds, subscript, kind::BECOMES)?;
    let value = expression(tokens, table, target.rows, target.next)?;
    let whole = add_row_of_two(
        table,
        Ok(value),
        row::ASSIGN_ELEMENT,
        i as u32,
        (target.rows - 1) as u32,
    );
    deepen(whole, 0, target.deepest + 1, 1, 0)
}

// An assignment to the name at token i.
fn assignment(
    tokens: TokenArrays,
    table: &mut [u32; 4096],
    n: usize,
    i: usize,
) -> Result<Extent, Ungrammatical>
    requires { (Fit tokens.kinds.now tokens.values.now n i) × (get_or tokens.kinds.now i 0 ≡ token_kinds.name) }
    ensures { Reads process_form tokens.entry.kinds.now tokens.entry.values.now i n table.old result table.new }
{
    match kind_at(tokens.kinds, i + 1) {
        kind::BECOMES => {
            let value = expression(tokens, table, n, i + 2)?;
            let whole = add_row(table, Ok(value), row::ASSIGN, i as u32);
            deepen(whole, 0, 0, 1, 0)
        }
        kind::OPEN_SUBSCRIPT => element_assignment(tokens, table, n, i),
        _ => Err(Ungrammatical { token: i + 1 }),
    }
}

// The first token from i on that is no comment.
fn past_comments(kinds: &[u8], i: usize) -> usize
    requires { i ≤ length kinds.now }
    ensures { (Comments kinds.now i result) × (get_or kinds.now result 0 ≡ token_kinds.comment → ⊥) }
{
    for j in i..kinds.len() {
        if kinds[j] != kind::COMMENT {
            return j;
        }
    }
    kinds.len()
}

// Row number m goes to place k.
fn push(pending: &mut [u16], k: usize, m: u16)
    requires { k < length pending.old }
    ensures { (get_or pending.new k 0 ≡ m) × (Kept pending.old pending.new k) }
{
    pending[k] = m;
}

// The joints of the `count` processes whose last rows wait from `top` on, the last process first; m is the first free row.
fn join(table: &mut [u32; 4096], pending: &[u16; 1024], top: usize, count: usize, m: usize)
    requires { (0 < m) × (m + count ≤ 1024) × (top + count ≤ 1024) }
    ensures { table.new ≡ joints table.old m pending.now top count }
{
    // `next` is counted beside the loop: a zip with the rows' numbers would walk two ranges in step, and say no more.
    let mut next = m;
    for c in (0..count).rev() {
        put(
            table,
            next,
            row::SEQUENCE,
            u32::from(pending[top + c]),
            (next - 1) as u32,
            0,
        );
        next += 1;
    }
}

// A process at token i; its rows are from row n on. Lists around it use `pending` below `top`.
// Six parameters, as in what it calls with `pending`: `table` and `pending` are lent apart, since expressions take the one alone;
// and `pending` with `top` is no stack of its own, since a list reads its part of it from the front.
#[cycle(braces_conditional_list_process_repetition)]
pub fn process(
    tokens: TokenArrays,
    table: &mut [u32; 4096],
    pending: &mut [u16; 1024],
    n: usize,
    i: usize,
    top: usize,
) -> Result<Extent, Ungrammatical>
    requires { (Fit tokens.kinds.now tokens.values.now n i) × (top ≤ i) }
    ensures { (Reads process_form tokens.entry.kinds.now tokens.entry.values.now i n table.old result table.new) × (Kept pending.old pending.new top) }
{
    let j = past_comments(tokens.kinds, i);
    let one_token = Extent {
        next: j + 1,
        rows: n + 1,
        depth: 1,
        deepest: 0,
    };
    match kind_at(tokens.kinds, j) {
        kind::SKIP => {
            put(table, n, row::SKIP, 0, 0, 0);
            Ok(one_token)
        }
        kind::STOP => {
            put(table, n, row::STOP, 0, 0, 0);
            Ok(one_token)
        }
        kind::NAME => assignment(tokens, table, n, j),
        kind::OPEN_BRACE => braces(tokens, table, pending, n, j, top),
        kind::IF => conditional(tokens, table, pending, n, j, top),
        kind::WHILE => repetition(tokens, table, pending, n, j, top),
        _ => Err(Ungrammatical { token: j }),
    }
}

// Braces, which open at token i.
#[cycle(braces_conditional_list_process_repetition)]
fn braces(
    tokens: TokenArrays,
    table: &mut [u32; 4096],
    pending: &mut [u16; 1024],
    n: usize,
    i: usize,
    top: usize,
) -> Result<Extent, Ungrammatical>
    requires { (Fit tokens.kinds.now tokens.values.now n i) × (get_or tokens.kinds.now i 0 ≡ token_kinds.open_brace) × (top ≤ i) }
    ensures { (Reads process_form tokens.entry.kinds.now tokens.entry.values.now i n table.old result table.new) × (Kept pending.old pending.new top) }
{
    if kind_at(tokens.kinds, i + 1) == kind::CLOSE_BRACE {
        put(table, n, row::SKIP, 0, 0, 0);
        return Ok(Extent {
            next: i + 2,
            rows: n + 1,
            depth: 1,
            deepest: 0,
        });
    }
    let processes = list(tokens, table, pending, n, i + 1, top)?;
    Ok(processes.deepen(0, 0, 1, 0))
}

// The processes from token i on, up to the closing brace, grouped to the right: each one's last row waits in `pending` until its joint is written, after the list.
#[cycle(braces_conditional_list_process_repetition)]
fn list(
    tokens: TokenArrays,
    table: &mut [u32; 4096],
    pending: &mut [u16; 1024],
    n: usize,
    i: usize,
    top: usize,
) -> Result<Extent, Ungrammatical>
    requires { (Fit tokens.kinds.now tokens.values.now n i) × (top ≤ i) }
    ensures { (Reads list_form tokens.entry.kinds.now tokens.entry.values.now i n table.old result table.new) × (Kept pending.old pending.new top) }
{
    // Up to the process that is read next; the joints of the processes so far are yet to be written.
    let mut so_far = Extent {
        next: i,
        rows: n,
        depth: 0,
        deepest: 0,
    };
    let mut count: usize = 0;
    // A `loop`, since a process takes as many tokens as it reads.
    loop {
        let part = process(
            tokens,
            table,
            pending,
            so_far.rows,
            so_far.next,
            top + count,
        )?;
        let depth = so_far.depth.max(part.depth);
        let deepest = so_far.deepest.max(part.deepest);
        match kind_at(tokens.kinds, part.next) {
            kind::CLOSE_BRACE => {
                join(table, pending, top, count, part.rows);
                return Ok(Extent {
                    next: part.next + 1,
                    rows: part.rows + count,
                    depth,
                    deepest,
                });
            }
            kind::SEMICOLON => {
                push(pending, top + count, (part.rows - 1) as u16);
                count += 1;
                so_far = Extent {
                    next: part.next + 1,
                    rows: part.rows,
                    depth,
                    deepest,
                };
            }
            _ => return Err(Ungrammatical { token: part.next }),
        }
    }
}

// `if e then p else p` at token i.
#[cycle(braces_conditional_list_process_repetition)]
fn conditional(
    tokens: TokenArrays,
    table: &mut [u32; 4096],
    pending: &mut [u16; 1024],
    n: usize,
    i: usize,
    top: usize,
) -> Result<Extent, Ungrammatical>
    requires { (Fit tokens.kinds.now tokens.values.now n i) × (get_or tokens.kinds.now i 0 ≡ token_kinds.if) × (top ≤ i) }
    ensures { (Reads process_form tokens.entry.kinds.now tokens.entry.values.now i n table.old result table.new) × (Kept pending.old pending.new top) }
{
    let e = expression(tokens, table, n, i + 1)?;
    let condition = close(tokens.kinds, Ok(e), kind::THEN)?;
    let p = process(tokens, table, pending, condition.rows, condition.next, top)?;
    let then = close(tokens.kinds, Ok(p), kind::ELSE)?;
    let other = process(tokens, table, pending, then.rows, then.next, top)?;
    let whole = add_row_of_two(
        table,
        Ok(other),
        row::IF,
        (condition.rows - 1) as u32,
        (then.rows - 1) as u32,
    );
    deepen(whole, then.depth, condition.deepest.max(then.deepest), 1, 0)
}

// `while e do p` at token i.
#[cycle(braces_conditional_list_process_repetition)]
fn repetition(
    tokens: TokenArrays,
    table: &mut [u32; 4096],
    pending: &mut [u16; 1024],
    n: usize,
    i: usize,
    top: usize,
) -> Result<Extent, Ungrammatical>
    requires { (Fit tokens.kinds.now tokens.values.now n i) × (get_or tokens.kinds.now i 0 ≡ token_kinds.while) × (top ≤ i) }
    ensures { (Reads process_form tokens.entry.kinds.now tokens.entry.values.now i n table.old result table.new) × (Kept pending.old pending.new top) }
{
    let e = expression(tokens, table, n, i + 1)?;
    let condition = close(tokens.kinds, Ok(e), kind::DO)?;
    let repeated = process(tokens, table, pending, condition.rows, condition.next, top)?;
    let whole = add_row(table, Ok(repeated), row::WHILE, (condition.rows - 1) as u32);
    deepen(whole, 0, condition.deepest, 1, 0)
}
