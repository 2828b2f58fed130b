// The code of the expressions and assignments of a syntax table, from its rows.
#![tactic(auto)]

ghost use Rattle.x_program.specs.Layout as layout;
ghost use Rattle.translate_emit_instructions.specs.Write.{Fits, Writes};
ghost use Rattle.translate_image_values.specs.Well.{Well, WellExpression};
ghost use Rattle.translate_image_values.specs.RowCode.{expression_in, process_in};

use translate_emit_instructions::Writer;
use x_program::row;
use x_program::table::row_at;

// The code of the expression in row r.
pub fn expression(table: &[u32], out: &mut Writer<'_>, r: usize)
    requires { WellExpression table.now r × Fits out.old (expression_in table.now r) }
    ensures { Writes out.old (expression_in table.now r) out.new }
{
    let w = row_at(table, r);
    match w.kind {
        row::NUMBER => translate_emit_blocks::push_constant(out, w.a),
        row::VARIABLE => {
            let v = row_at(table, w.a as usize);
            translate_emit_blocks::push_variable(out, v.a)
        }
        row::ELEMENT => {
            let v = row_at(table, w.a as usize);
            expression(table, out, w.b as usize);
            translate_emit_blocks::check_subscript(out, v.b);
            translate_emit_blocks::load_element(out, v.a)
        }
        row::MONADIC => {
            expression(table, out, w.b as usize);
            translate_emit_operators::monadic(out, w.a)
        }
        _ => {
            expression(table, out, w.b as usize);
            expression(table, out, w.c as usize);
            translate_emit_operators::diadic(out, w.a)
        }
    }
}

// Row r assigns to a variable.
pub fn assign(table: &[u32], out: &mut Writer<'_>, r: usize)
    requires { Well layout.assign layout.assign table.now r × Fits out.old (process_in table.now r) }
    ensures { Writes out.old (process_in table.now r) out.new }
{
    let assigned = row_at(table, r);
    let variable = row_at(table, assigned.a as usize);
    expression(table, out, assigned.b as usize);
    translate_emit_blocks::assign_variable(out, variable.a)
}

// Row r assigns to an element.
pub fn assign_element(table: &[u32], out: &mut Writer<'_>, r: usize)
    requires { Well layout.assign_element layout.assign_element table.now r × Fits out.old (process_in table.now r) }
    ensures { Writes out.old (process_in table.now r) out.new }
{
    let assigned = row_at(table, r);
    let array = row_at(table, assigned.a as usize);
    expression(table, out, assigned.b as usize);
    translate_emit_blocks::check_subscript(out, array.b);
    expression(table, out, assigned.c as usize);
    translate_emit_blocks::store_element(out, array.a)
}
