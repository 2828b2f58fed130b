// The image of a syntax table: a walk over its rows, from the last one down.
#![tactic(auto)]

ghost use Rattle.std.specs.Prelude.{◌-◌, ◌<◌};
ghost use Rattle.x_program.specs.Layout as layout;
ghost use Rattle.x_program.specs.Table.{process_at};
ghost use Rattle.translate_rules.specs.ImageCode.{image_code};
ghost use Rattle.translate_emit_instructions.specs.Write.{Room, Wrote, Fits, Writes};
ghost use Rattle.translate_image_values.specs.Well.{Well, WellProcess, WellSingle};
ghost use Rattle.translate_image_values.specs.RowCode.{process_in};

use arm_encoding::Instr;
use translate_emit_instructions::Writer;
use translate_image_values::{assign, assign_element, expression};
use x_program::row;
use x_program::table::row_at;

// A jump's bytes: the gap that is left for one.
const JUMP: usize = 4;

// The code of the process in row r. Lists are grouped to the right: a part at a time, then the last.
#[cycle(conditional_process_repeat_single)]
fn process(table: &[u32], out: &mut Writer<'_>, r: usize)
    requires { WellProcess table.now r × Fits out.old (process_in table.now r) }
    ensures { Writes out.old (process_in table.now r) out.new }
{
    // The `while` goes from row to row down the list; it counts nothing.
    let mut last = r;
    let mut w = row_at(table, r);
    while w.kind == row::SEQUENCE {
        process(table, out, w.a as usize);
        last = w.b as usize;
        w = row_at(table, last);
    }
    single(table, out, last)
}

// Row r is a process, no sequence.
#[cycle(conditional_process_repeat_single)]
fn single(table: &[u32], out: &mut Writer<'_>, r: usize)
    requires { WellSingle table.now r × Fits out.old (process_in table.now r) }
    ensures { Writes out.old (process_in table.now r) out.new }
{
    match row_at(table, r).kind {
        row::SKIP => {}
        row::STOP => out.put(Instr::Svc(1)),
        row::ASSIGN => assign(table, out, r),
        row::ASSIGN_ELEMENT => assign_element(table, out, r),
        row::IF => conditional(table, out, r),
        _ => repeat(table, out, r),
    }
}

// Row r is an if: each part is written before the jump over it.
#[cycle(conditional_process_repeat_single)]
fn conditional(table: &[u32], out: &mut Writer<'_>, r: usize)
    requires { Well layout.if layout.if table.now r × Fits out.old (process_in table.now r) }
    ensures { Writes out.old (process_in table.now r) out.new }
{
    let choice = row_at(table, r);
    expression(table, out, choice.a as usize);
    translate_emit_blocks::take_condition(out);
    let then_gap = out.at;
    out.at += JUMP;
    process(table, out, choice.b as usize);
    let else_gap = out.at;
    out.at += JUMP;
    translate_emit_blocks::jump_over(out.code, then_gap, out.at);
    process(table, out, choice.c as usize);
    translate_emit_blocks::jump_over(out.code, else_gap, out.at);
}

// Row r is a while: the body is written before the jump over it.
#[cycle(conditional_process_repeat_single)]
fn repeat(table: &[u32], out: &mut Writer<'_>, r: usize)
    requires { Well layout.while layout.while table.now r × Fits out.old (process_in table.now r) }
    ensures { Writes out.old (process_in table.now r) out.new }
{
    let repeated = row_at(table, r);
    let start = out.at;
    expression(table, out, repeated.a as usize);
    translate_emit_blocks::take_condition(out);
    let gap = out.at;
    out.at += JUMP;
    process(table, out, repeated.b as usize);
    translate_emit_blocks::jump_over(out.code, gap, out.at + JUMP);
    translate_emit_blocks::jump_back(out, start);
}

// The image of the table whose last row, the program, is row rows - 1: the place after its bytes.
pub fn image(table: &[u32], rows: usize, code: &mut [u8]) -> usize
    requires { (0 < rows) × (WellProcess table.now (rows - 1) × Room code.old 0 (image_code (process_at table.now (rows - 1)))) }
    ensures { Wrote code.old 0 (image_code (process_at table.now (rows - 1))) code.new result }
{
    let mut out = Writer::new(code);
    process(table, &mut out, rows - 1);
    out.put(Instr::Svc(0));
    out.at
}
