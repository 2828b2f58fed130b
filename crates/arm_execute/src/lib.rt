// What one instruction does to the machine's state and to the lent words: one arm an instruction.
#![tactic(auto)]

ghost use Rattle.std.specs.Prelude.{◌≡◌};
ghost use Rattle.arm_state.specs.MachineCore as cores;
ghost use Rattle.arm_state.specs.Effects as spec;

use arm_encoding::Instr;
use arm_state::{Core, Stopped, times4};
use arm_word::{add, complement, low_product, sub};

// One instruction. A branch returns from its own arm: as a value chosen by the test, the next pc would wait for it.
pub fn execute(core: Core, i: Instr, code: &[u8], memory: &mut [u32]) -> Result<Core, Stopped>
    ensures { cores.turned result memory.new ≡ (spec.execute_of code.now memory.old (cores.whole core) i).after }
{
    match i {
        Instr::Shli(n, l, d) => Ok(core.shifts_left(d, core.reg(l), n as u32)),
        Instr::Shri(n, l, d) => Ok(core.shifts_right(d, core.reg(l), n as u32)),
        Instr::Ashri(n, l, d) => Ok(core.shifts_right_signed(d, core.reg(l), n as u32)),
        Instr::Addr(r, l, d) => Ok(core.adds(d, core.reg(l), core.reg(r))),
        Instr::Subr(r, l, d) => Ok(core.subtracts(d, core.reg(l), core.reg(r))),
        Instr::Movi(d, u) => Ok(core.sets(d, u as u32)),
        Instr::Addi(d, u) => Ok(core.adds(d, core.reg(d), u as u32)),
        Instr::Subi(d, u) => Ok(core.subtracts(d, core.reg(d), u as u32)),
        Instr::Ldrpci(d, u) => core.load(d, add(core.here(), times4(u)), code, memory),
        Instr::Strspi(d, u) => core.store(d, add(core.sp, times4(u)), memory),
        Instr::Ldrspi(d, u) => core.load(d, add(core.sp, times4(u)), code, memory),
        Instr::Addpci(d, u) => Ok(core.takes(d, add(core.here(), times4(u)))),
        Instr::Addspi(d, u) => Ok(core.takes(d, add(core.sp, times4(u)))),
        Instr::Andr(r, d) => Ok(core.sets(d, core.reg(d) & core.reg(r))),
        Instr::Xorr(r, d) => Ok(core.sets(d, core.reg(d) ^ core.reg(r))),
        Instr::Shl(r, d) => Ok(core.shifts_left(d, core.reg(d), core.reg(r) % 256)),
        Instr::Shr(r, d) => Ok(core.shifts_right(d, core.reg(d), core.reg(r) % 256)),
        Instr::Negr(r, d) => Ok(core.subtracts(d, 0, core.reg(r))),
        Instr::Orr(r, d) => Ok(core.sets(d, core.reg(d) | core.reg(r))),
        Instr::Mul(r, d) => Ok(core.sets(d, low_product(core.reg(d), core.reg(r)))),
        Instr::Mvnr(r, d) => Ok(core.sets(d, complement(core.reg(r)))),
        Instr::Str(x, b, d) => core.store(d, add(core.reg(b), core.reg(x)), memory),
        Instr::Ldr(x, b, d) => core.load(d, add(core.reg(b), core.reg(x)), code, memory),
        Instr::Stri(u, b, d) => core.store(d, add(core.reg(b), times4(u)), memory),
        Instr::Ldri(u, b, d) => core.load(d, add(core.reg(b), times4(u)), code, memory),
        Instr::Incsp(u) => Ok(core.moves(add(core.sp, times4(u)))),
        Instr::Decsp(u) => Ok(core.moves(sub(core.sp, times4(u)))),
        Instr::Svc(u) => Err(core.ended(u)),
        Instr::Beq(k) => {
            if core.flags.z {
                return Ok(core.jump(k));
            }
            Ok(core.next())
        }
        Instr::Bne(k) => {
            if !core.flags.z {
                return Ok(core.jump(k));
            }
            Ok(core.next())
        }
        Instr::Bge(k) => {
            if !core.less() {
                return Ok(core.jump(k));
            }
            Ok(core.next())
        }
        Instr::Blt(k) => {
            if core.less() {
                return Ok(core.jump(k));
            }
            Ok(core.next())
        }
        Instr::Bu(k) => Ok(core.jump(k)),
        Instr::Bl(k) => Ok(core.link(k)),
    }
}
