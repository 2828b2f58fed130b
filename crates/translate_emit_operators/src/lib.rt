// The instructions of an operator written to a buffer.
#![tactic(auto)]

ghost use Rattle.std.specs.Prelude.{◌≡◌, [], ◌∷◌, ◌++◌};
ghost use Rattle.arm_encoding.specs.declared.Instr.TheVariants.{Subr, Beq, Movi, Mvnr};
ghost use Rattle.translate_rules.specs.Blocks.{monadic_instruction, work_monadic_code, work_diadic_code, less_than, far_shift, diadic_instructions};
ghost use Rattle.x_program.specs.Table.{monadic_of, diadic_of};
ghost use Rattle.translate_emit_instructions.specs.Write.{Fits, Writes};

use arm_encoding::Instr;
use translate_emit_instructions::Writer;
use x_program::operator;

// The instruction that works r0 by the monadic operator of number o.
fn monadic_instruction(o: u32) -> Instr
    ensures { result ≡ monadic_instruction (monadic_of o) }
{
    match o {
        operator::NEGATE => Instr::Negr(0, 0),
        _ => Instr::Mvnr(0, 0),
    }
}

// The word on the stack gives way to the result of the monadic operator of number o.
#[tactic(auto, unfolding(translate_rules::specs::Blocks::work_monadic_code))]
pub fn monadic(out: &mut Writer<'_>, o: u32)
    requires { Fits out.old (work_monadic_code (monadic_of o)) }
    ensures { Writes out.old (work_monadic_code (monadic_of o)) out.new }
{
    let work = monadic_instruction(o);
    out.put_all(&[Instr::Ldrspi(0, 0), work, Instr::Strspi(0, 0)])
}

// r0 takes the truth of register i being below register j as signed numbers.
#[tactic(auto, unfolding(translate_rules::specs::Blocks::less_than))]
fn less_than(out: &mut Writer<'_>, i: u8, j: u8)
    requires { Fits out.old (less_than i j) }
    ensures { Writes out.old (less_than i j) out.new }
{
    out.put_all(&[
        Instr::Shri(31, i, 2),
        Instr::Shri(31, j, 3),
        Instr::Subr(3, 2, 3),
        Instr::Bne(1),
        Instr::Subr(j, i, 0),
        Instr::Shri(31, 0, 2),
        Instr::Negr(2, 0),
    ])
}

// The opposite of that truth.
fn not_less_than(out: &mut Writer<'_>, i: u8, j: u8)
    requires { Fits out.old (less_than i j ++ Mvnr 0 0 ∷ []) }
    ensures { Writes out.old (less_than i j ++ Mvnr 0 0 ∷ []) out.new }
{
    less_than(out, i, j);
    out.put(Instr::Mvnr(0, 0))
}

// A shift, by the instruction `last`: a count above 31 makes value and count 0 first.
#[tactic(auto, unfolding(translate_rules::specs::Blocks::far_shift))]
fn shift(out: &mut Writer<'_>, last: Instr)
    requires { Fits out.old (far_shift ++ last ∷ []) }
    ensures { Writes out.old (far_shift ++ last ∷ []) out.new }
{
    out.put_all(&[
        Instr::Shri(5, 1, 2),
        Instr::Beq(1),
        Instr::Movi(0, 0),
        Instr::Movi(1, 0),
        last,
    ])
}

// r0 takes the truth of a difference: of its being 0 if `last` is SUBI, of its not being 0 if NEGR.
fn equality(out: &mut Writer<'_>, last: Instr)
    requires { Fits out.old (Subr 1 0 0 ∷ Beq 0 ∷ Movi 0 1 ∷ last ∷ []) }
    ensures { Writes out.old (Subr 1 0 0 ∷ Beq 0 ∷ Movi 0 1 ∷ last ∷ []) out.new }
{
    out.put_all(&[Instr::Subr(1, 0, 0), Instr::Beq(0), Instr::Movi(0, 1), last])
}

// r0 takes r0 and r1 worked together by the diadic operator of number o.
fn diadic_instructions(out: &mut Writer<'_>, o: u32)
    requires { Fits out.old (diadic_instructions (diadic_of o)) }
    ensures { Writes out.old (diadic_instructions (diadic_of o)) out.new }
{
    match o {
        operator::PLUS => out.put(Instr::Addr(1, 0, 0)),
        operator::MINUS => out.put(Instr::Subr(1, 0, 0)),
        operator::TIMES => out.put(Instr::Mul(1, 0)),
        operator::AND => out.put(Instr::Andr(1, 0)),
        operator::OR => out.put(Instr::Orr(1, 0)),
        operator::XOR => out.put(Instr::Xorr(1, 0)),
        operator::SHIFT_RIGHT => shift(out, Instr::Shr(1, 0)),
        operator::SHIFT_LEFT => shift(out, Instr::Shl(1, 0)),
        operator::EQUAL => equality(out, Instr::Subi(0, 1)),
        operator::UNEQUAL => equality(out, Instr::Negr(0, 0)),
        operator::LESS => less_than(out, 0, 1),
        operator::AT_MOST => not_less_than(out, 1, 0),
        operator::GREATER => less_than(out, 1, 0),
        _ => not_less_than(out, 0, 1),
    }
}

// The right operand comes off the stack, the left one gives way to the result.
pub fn diadic(out: &mut Writer<'_>, o: u32)
    requires { Fits out.old (work_diadic_code (diadic_of o)) }
    ensures { Writes out.old (work_diadic_code (diadic_of o)) out.new }
{
    out.put_all(&[Instr::Ldrspi(1, 0), Instr::Incsp(1), Instr::Ldrspi(0, 0)]);
    diadic_instructions(out, o);
    out.put(Instr::Strspi(0, 0))
}
