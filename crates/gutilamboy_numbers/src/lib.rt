// Instructions, decodings and states of the machine as numbers, for the C boundary.
#![tactic(auto)]

ghost use Rattle.std.specs.Prelude.{◌≡◌, [], ◌∷◌, ◌≤◌};
ghost use Rattle.arm_word.specs.Choice.{pick};
ghost use Rattle.arm_encoding.specs.Encoding.{encoded};
ghost use Rattle.gutilamboy_numbers.specs.Numbers as numbers;

use arm_encoding::{Halfwords, Instr};
use arm_state::{Flags, Machine};

// Instructions by number, and no `From`: these are C's numbers, and neither type is this crate's.

// The instruction of a number, of up to three fields and of a distance; a number from 34 on has none.
pub fn instruction(op: u8, a: u8, b: u8, c: u8, k: u32) -> Option<Instr>
    ensures { result ≡ numbers.instruction_of op a b c k }
{
    match op {
        0 => Some(Instr::Shli(a, b, c)),
        1 => Some(Instr::Shri(a, b, c)),
        2 => Some(Instr::Ashri(a, b, c)),
        3 => Some(Instr::Addr(a, b, c)),
        4 => Some(Instr::Subr(a, b, c)),
        5 => Some(Instr::Movi(a, b)),
        6 => Some(Instr::Addi(a, b)),
        7 => Some(Instr::Subi(a, b)),
        8 => Some(Instr::Ldrpci(a, b)),
        9 => Some(Instr::Strspi(a, b)),
        10 => Some(Instr::Ldrspi(a, b)),
        11 => Some(Instr::Addpci(a, b)),
        12 => Some(Instr::Addspi(a, b)),
        13 => Some(Instr::Andr(a, b)),
        14 => Some(Instr::Xorr(a, b)),
        15 => Some(Instr::Shl(a, b)),
        16 => Some(Instr::Shr(a, b)),
        17 => Some(Instr::Negr(a, b)),
        18 => Some(Instr::Orr(a, b)),
        19 => Some(Instr::Mul(a, b)),
        20 => Some(Instr::Mvnr(a, b)),
        21 => Some(Instr::Str(a, b, c)),
        22 => Some(Instr::Ldr(a, b, c)),
        23 => Some(Instr::Stri(a, b, c)),
        24 => Some(Instr::Ldri(a, b, c)),
        25 => Some(Instr::Incsp(a)),
        26 => Some(Instr::Decsp(a)),
        27 => Some(Instr::Svc(a)),
        28 => Some(Instr::Beq(k)),
        29 => Some(Instr::Bne(k)),
        30 => Some(Instr::Bge(k)),
        31 => Some(Instr::Blt(k)),
        32 => Some(Instr::Bu(k)),
        33 => Some(Instr::Bl(k)),
        _ => None,
    }
}

// A number, three fields and a distance.
fn row(op: u32, a: u8, b: u8, c: u8, k: u32) -> [u32; 5]
    ensures { result ≡ op ∷ a ∷ b ∷ c ∷ k ∷ [] }
{
    [op, a as u32, b as u32, c as u32, k]
}

pub fn instruction_words(i: Instr) -> [u32; 5]
    ensures { result ≡ numbers.instruction_words i }
{
    match i {
        Instr::Shli(a, b, c) => row(0, a, b, c, 0),
        Instr::Shri(a, b, c) => row(1, a, b, c, 0),
        Instr::Ashri(a, b, c) => row(2, a, b, c, 0),
        Instr::Addr(a, b, c) => row(3, a, b, c, 0),
        Instr::Subr(a, b, c) => row(4, a, b, c, 0),
        Instr::Movi(a, b) => row(5, a, b, 0, 0),
        Instr::Addi(a, b) => row(6, a, b, 0, 0),
        Instr::Subi(a, b) => row(7, a, b, 0, 0),
        Instr::Ldrpci(a, b) => row(8, a, b, 0, 0),
        Instr::Strspi(a, b) => row(9, a, b, 0, 0),
        Instr::Ldrspi(a, b) => row(10, a, b, 0, 0),
        Instr::Addpci(a, b) => row(11, a, b, 0, 0),
        Instr::Addspi(a, b) => row(12, a, b, 0, 0),
        Instr::Andr(a, b) => row(13, a, b, 0, 0),
        Instr::Xorr(a, b) => row(14, a, b, 0, 0),
        Instr::Shl(a, b) => row(15, a, b, 0, 0),
        Instr::Shr(a, b) => row(16, a, b, 0, 0),
        Instr::Negr(a, b) => row(17, a, b, 0, 0),
        Instr::Orr(a, b) => row(18, a, b, 0, 0),
        Instr::Mul(a, b) => row(19, a, b, 0, 0),
        Instr::Mvnr(a, b) => row(20, a, b, 0, 0),
        Instr::Str(a, b, c) => row(21, a, b, c, 0),
        Instr::Ldr(a, b, c) => row(22, a, b, c, 0),
        Instr::Stri(a, b, c) => row(23, a, b, c, 0),
        Instr::Ldri(a, b, c) => row(24, a, b, c, 0),
        Instr::Incsp(a) => row(25, a, 0, 0, 0),
        Instr::Decsp(a) => row(26, a, 0, 0, 0),
        Instr::Svc(a) => row(27, a, 0, 0, 0),
        Instr::Beq(k) => row(28, 0, 0, 0, k),
        Instr::Bne(k) => row(29, 0, 0, 0, k),
        Instr::Bge(k) => row(30, 0, 0, 0, k),
        Instr::Blt(k) => row(31, 0, 0, 0, k),
        Instr::Bu(k) => row(32, 0, 0, 0, k),
        Instr::Bl(k) => row(33, 0, 0, 0, k),
    }
}

pub fn decoded_words(d: Option<Instr>) -> [u32; 5]
    ensures { result ≡ numbers.decoded_words d }
{
    let Some(i) = d else {
        return row(34, 0, 0, 0, 0);
    };
    instruction_words(i)
}

// Status, count and both halfwords: 35 and nothing else where a field is out of range.
pub fn encoded_words(e: Option<Halfwords>) -> [u32; 4]
    ensures { result ≡ numbers.encoded_words (encoded e) }
{
    match e {
        Some(Halfwords::One(first)) => [0, 1, first as u32, 0],
        Some(Halfwords::Two(first, second)) => [0, 2, first as u32, second as u32],
        None => [35, 0, 0, 0],
    }
}

// The flags of an APSR word: N in bit 31, Z 30, C 29, V 28. All other bits are ignored.
fn apsr_flags(w: u32) -> Flags
    ensures { result ≡ numbers.apsr_flags w }
{
    Flags {
        n: w / 0x8000_0000 % 2 == 1,
        z: w / 0x4000_0000 % 2 == 1,
        c: w / 0x2000_0000 % 2 == 1,
        v: w / 0x1000_0000 % 2 == 1,
    }
}

fn weight(b: bool, w: u32) -> u32
    ensures { (result ≡ pick b w 0) × (result ≤ w) }
{
    if b { w } else { 0 }
}

// And back; all other bits are 0.
fn apsr_word(f: Flags) -> u32
    ensures { result ≡ numbers.apsr_word f }
{
    weight(f.n, 0x8000_0000)
        + weight(f.z, 0x4000_0000)
        + weight(f.c, 0x2000_0000)
        + weight(f.v, 0x1000_0000)
}

pub fn state_of(s: &[u32; 12]) -> Machine
    ensures { result ≡ numbers.state_of s.now }
{
    let apsr = s[11];
    Machine {
        regs: [s[0], s[1], s[2], s[3], s[4], s[5], s[6], s[7]],
        sp: s[8],
        lr: s[9],
        pc: s[10],
        flags: apsr_flags(apsr),
    }
}

pub fn state_words(m: Machine) -> [u32; 12]
    ensures { result ≡ numbers.words_of_state m }
{
    let r = m.regs;
    [
        r[0],
        r[1],
        r[2],
        r[3],
        r[4],
        r[5],
        r[6],
        r[7],
        m.sp,
        m.lr,
        m.pc,
        apsr_word(m.flags),
    ]
}
