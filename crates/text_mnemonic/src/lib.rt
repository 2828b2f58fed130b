// An instruction as text: document 01's mnemonic and the operands, added to the end of a line.
#![tactic(auto)]

ghost use Rattle.std.specs.Prelude.{◌≡◌, ◌++◌};
ghost use Rattle.text_lines.specs.Text.{written, fitted};
ghost use Rattle.text_mnemonic.specs.Mnemonic as spec;

use arm_encoding::Instr;
use text_lines::Line;

// A register.
fn register(line: Line, r: u8) -> Line
    ensures { written result ≡ fitted (written line ++ spec.register r) }
{
    line.put(b'r').decimal(r as u32)
}

// A comma and a register.
fn next_register(line: Line, r: u8) -> Line
    ensures { written result ≡ fitted (written line ++ spec.next_register r) }
{
    register(line.put(b','), r)
}

// A comma and a number.
fn next_number(line: Line, n: u32) -> Line
    ensures { written result ≡ fitted (written line ++ spec.next_number n) }
{
    line.put(b',').decimal(n)
}

// A mnemonic with a space after it, and a number.
fn alone(line: Line, name: &[u8], n: u32) -> Line
    ensures { written result ≡ fitted (written line ++ spec.alone name.now n) }
{
    line.put_all(name).decimal(n)
}

// A mnemonic and a register.
fn single(line: Line, name: &[u8], d: u8) -> Line
    ensures { written result ≡ fitted (written line ++ spec.single name.now d) }
{
    register(line.put_all(name), d)
}

// A mnemonic, a register and a number.
fn immediate(line: Line, name: &[u8], d: u8, n: u32) -> Line
    ensures { written result ≡ fitted (written line ++ spec.immediate name.now d n) }
{
    next_number(single(line, name, d), n)
}

// A mnemonic and two registers.
fn pair(line: Line, name: &[u8], d: u8, r: u8) -> Line
    ensures { written result ≡ fitted (written line ++ spec.pair name.now d r) }
{
    next_register(single(line, name, d), r)
}

// A mnemonic, two registers and a number.
fn offset(line: Line, name: &[u8], d: u8, r: u8, n: u32) -> Line
    ensures { written result ≡ fitted (written line ++ spec.offset name.now d r n) }
{
    next_number(pair(line, name, d, r), n)
}

// A mnemonic and three registers.
fn triple(line: Line, name: &[u8], d: u8, l: u8, r: u8) -> Line
    ensures { written result ≡ fitted (written line ++ spec.triple name.now d l r) }
{
    next_register(pair(line, name, d, l), r)
}

// A branch at an address, by a distance in halfwords: the address that it goes to.
fn branch(line: Line, name: &[u8], at: u32, k: u32) -> Line
    ensures { written result ≡ fitted (written line ++ spec.branch name.now at k) }
{
    let to = arm_word::add(arm_word::add(at, 4), arm_word::add(k, k));
    line.put_all(name).hexadecimal(to)
}

// The mnemonic and the operands of an instruction at an address.
#[tactic(auto, unfolding(crate::specs::Mnemonic::instruction))]
pub fn instruction(line: Line, at: u32, i: Instr) -> Line
    ensures { written result ≡ fitted (written line ++ spec.instruction at i) }
{
    match i {
        Instr::Shli(n, l, d) => offset(line, b"SHLI ", d, l, n as u32),
        Instr::Shri(n, l, d) => offset(line, b"SHRI ", d, l, n as u32),
        Instr::Ashri(n, l, d) => offset(line, b"ASHRI ", d, l, n as u32),
        Instr::Addr(r, l, d) => triple(line, b"ADDR ", d, l, r),
        Instr::Subr(r, l, d) => triple(line, b"SUBR ", d, l, r),
        Instr::Movi(d, u) => immediate(line, b"MOVI ", d, u as u32),
        Instr::Addi(d, u) => immediate(line, b"ADDI ", d, u as u32),
        Instr::Subi(d, u) => immediate(line, b"SUBI ", d, u as u32),
        Instr::Ldrpci(d, u) => immediate(line, b"LDRPCI ", d, 4 * (u as u32)),
        Instr::Strspi(d, u) => immediate(line, b"STRSPI ", d, 4 * (u as u32)),
        Instr::Ldrspi(d, u) => immediate(line, b"LDRSPI ", d, 4 * (u as u32)),
        Instr::Addpci(d, u) => immediate(line, b"ADDPCI ", d, 4 * (u as u32)),
        Instr::Addspi(d, u) => immediate(line, b"ADDSPI ", d, 4 * (u as u32)),
        Instr::Andr(r, d) => pair(line, b"ANDR ", d, r),
        Instr::Xorr(r, d) => pair(line, b"XORR ", d, r),
        Instr::Shl(r, d) => pair(line, b"SHL ", d, r),
        Instr::Shr(r, d) => pair(line, b"SHR ", d, r),
        Instr::Negr(r, d) => pair(line, b"NEGR ", d, r),
        Instr::Orr(r, d) => pair(line, b"ORR ", d, r),
        Instr::Mul(r, d) => pair(line, b"MUL ", d, r),
        Instr::Mvnr(r, d) => pair(line, b"MVNR ", d, r),
        Instr::Str(i, b, d) => triple(line, b"STR ", d, b, i),
        Instr::Ldr(i, b, d) => triple(line, b"LDR ", d, b, i),
        Instr::Stri(u, b, d) => offset(line, b"STRI ", d, b, 4 * (u as u32)),
        Instr::Ldri(u, b, d) => offset(line, b"LDRI ", d, b, 4 * (u as u32)),
        Instr::Incsp(u) => alone(line, b"INCSP ", 4 * (u as u32)),
        Instr::Decsp(u) => alone(line, b"DECSP ", 4 * (u as u32)),
        Instr::Svc(u) => alone(line, b"SVC ", u as u32),
        Instr::Beq(k) => branch(line, b"BEQ ", at, k),
        Instr::Bne(k) => branch(line, b"BNE ", at, k),
        Instr::Bge(k) => branch(line, b"BGE ", at, k),
        Instr::Blt(k) => branch(line, b"BLT ", at, k),
        Instr::Bu(k) => branch(line, b"BU ", at, k),
        Instr::Bl(k) => branch(line, b"BL ", at, k),
    }
}
