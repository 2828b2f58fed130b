// The blocks of the translation rules, but for the operators', written to a buffer.
#![tactic(auto)]

ghost use Rattle.std.specs.Prelude.{[], ◌∷◌, ◌++◌, ◌+◌, ◌-◌, ◌≤◌};
ghost use Rattle.translate_rules.specs.Constant.{load_constant};
ghost use Rattle.translate_rules.specs.Blocks.{jump_over, jump_back};
ghost use Rattle.translate_rules.specs.Blocks.{push_constant, push_variable, check_subscript, load_element, assign_variable, store_element, take_condition};
ghost use Rattle.translate_emit_instructions.specs.Write.{Wrote, Fits, Writes};
ghost use Rattle.translate_emit_blocks.specs.Jumps.{Ahead};

use arm_encoding::Instr;
use translate_emit_instructions::{Writer, put};

// Instructions about the load of a constant, by its register and word. Inlined, since the instructions are then known where they are encoded: without it a
// translation of many assignments takes 5 % longer.
#[inline(always)]
fn put_about(out: &mut Writer<'_>, before: &[Instr], load: (u8, u32), after: &[Instr])
    requires { Fits out.old (before.now ++ (load_constant load.0 load.1 ++ after.now)) }
    ensures { Writes out.old (before.now ++ (load_constant load.0 load.1 ++ after.now)) out.new }
{
    out.put_all(before);
    out.constant(load.0, load.1);
    out.put_all(after)
}

// A constant goes on the stack.
#[tactic(auto, unfolding(translate_rules::specs::Blocks::push_constant))]
pub fn push_constant(out: &mut Writer<'_>, w: u32)
    requires { Fits out.old (push_constant w) }
    ensures { Writes out.old (push_constant w) out.new }
{
    put_about(out, &[Instr::Decsp(1)], (0, w), &[Instr::Strspi(0, 0)])
}

// The variable at word offset o goes on the stack.
#[tactic(auto, unfolding(translate_rules::specs::Blocks::push_variable))]
pub fn push_variable(out: &mut Writer<'_>, o: u32)
    requires { (o ≤ 8192) × Fits out.old (push_variable o) }
    ensures { Writes out.old (push_variable o) out.new }
{
    put_about(
        out,
        &[Instr::Decsp(1)],
        (1, 4 * o),
        &[Instr::Ldr(1, 7, 0), Instr::Strspi(0, 0)],
    )
}

// The subscript on the stack is below the length n, or SVC 2.
#[tactic(auto, unfolding(translate_rules::specs::Blocks::check_subscript))]
pub fn check_subscript(out: &mut Writer<'_>, n: u32)
    requires { Fits out.old (check_subscript n) }
    ensures { Writes out.old (check_subscript n) out.new }
{
    put_about(
        out,
        &[
            Instr::Ldrspi(0, 0),
            Instr::Shri(14, 0, 2),
            Instr::Beq(0),
            Instr::Svc(2),
        ],
        (1, n),
        &[
            Instr::Subr(1, 0, 2),
            Instr::Shri(31, 2, 2),
            Instr::Bne(0),
            Instr::Svc(2),
        ],
    )
}

// The subscript on the stack gives way to its element, of the array at word offset o.
#[tactic(auto, unfolding(translate_rules::specs::Blocks::load_element))]
pub fn load_element(out: &mut Writer<'_>, o: u32)
    requires { (o ≤ 8192) × Fits out.old (load_element o) }
    ensures { Writes out.old (load_element o) out.new }
{
    put_about(
        out,
        &[Instr::Ldrspi(0, 0), Instr::Shli(2, 0, 0)],
        (1, 4 * o),
        &[
            Instr::Addr(1, 0, 0),
            Instr::Ldr(0, 7, 0),
            Instr::Strspi(0, 0),
        ],
    )
}

// The word on the stack comes off, into the variable at word offset o.
#[tactic(auto, unfolding(translate_rules::specs::Blocks::assign_variable))]
pub fn assign_variable(out: &mut Writer<'_>, o: u32)
    requires { (o ≤ 8192) × Fits out.old (assign_variable o) }
    ensures { Writes out.old (assign_variable o) out.new }
{
    put_about(
        out,
        &[Instr::Ldrspi(0, 0), Instr::Incsp(1)],
        (1, 4 * o),
        &[Instr::Str(1, 7, 0)],
    )
}

// Value and subscript come off the stack, the value into the element, of the array at word offset o.
#[tactic(auto, unfolding(translate_rules::specs::Blocks::store_element))]
pub fn store_element(out: &mut Writer<'_>, o: u32)
    requires { (o ≤ 8192) × Fits out.old (store_element o) }
    ensures { Writes out.old (store_element o) out.new }
{
    put_about(
        out,
        &[
            Instr::Ldrspi(0, 0),
            Instr::Ldrspi(1, 1),
            Instr::Incsp(2),
            Instr::Shli(2, 1, 1),
        ],
        (2, 4 * o),
        &[Instr::Addr(2, 1, 1), Instr::Str(1, 7, 0)],
    )
}

// The condition comes off the stack; if it holds the jump that follows is stepped over.
#[tactic(auto, unfolding(translate_rules::specs::Blocks::take_condition))]
pub fn take_condition(out: &mut Writer<'_>)
    requires { Fits out.old take_condition }
    ensures { Writes out.old take_condition out.new }
{
    out.put_all(&[
        Instr::Ldrspi(0, 0),
        Instr::Incsp(1),
        Instr::Addi(0, 0),
        Instr::Bne(1),
    ])
}

// A jump at `at` over what stands up to `to`.
#[tactic(auto, unfolding(translate_rules::specs::Blocks::jump_over))]
pub fn jump_over(code: &mut [u8], at: usize, to: usize) -> usize
    requires { Ahead code.old at to }
    ensures { Wrote code.old at (jump_over (to - (at + 4)) ∷ []) code.new result }
{
    put(code, at, Instr::Bl(((to - (at + 4)) / 2) as u32))
}

// A jump back to `to`.
#[tactic(auto, unfolding(translate_rules::specs::Blocks::jump_back))]
pub fn jump_back(out: &mut Writer<'_>, to: usize)
    requires { (to ≤ out.old.at) × Fits out.old (jump_back (out.old.at + 4 - to) ∷ []) }
    ensures { Writes out.old (jump_back (out.old.at + 4 - to) ∷ []) out.new }
{
    out.put(Instr::Bl((4294967296 - (out.at + 4 - to) / 2) as u32))
}
