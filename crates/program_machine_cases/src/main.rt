// Document 01's encodings and short runs of the machine, written to standard output.
#![tactic(auto)]

use arm_encoding::{Halfwords, Instr};

// A name and its halfwords, or 35.
fn encoding(rt: &impl Print, name: &str, i: Instr) {
    let _ = print!(rt; "{name}");
    match arm_encoding::encode(i) {
        None => {
            let _ = print!(rt; " 35");
        }
        Some(Halfwords::One(first)) => {
            let _ = print!(rt; " {first:04x}");
        }
        Some(Halfwords::Two(first, second)) => {
            let _ = print!(rt; " {first:04x} {second:04x}");
        }
    }
    let _ = println!(rt);
}

// Eight bytes of code, the lower byte of each halfword first.
fn code_of(a: u16, b: u16, c: u16, d: u16) -> [u8; 8] {
    let [a, b, c, d] = [a, b, c, d].map(|half| half.to_le_bytes());
    [a[0], a[1], b[0], b[1], c[0], c[1], d[0], d[1]]
}

fn flag(set: bool, letter: char) -> char {
    if set { letter } else { '-' }
}

// A start with 1 declared word and depth 1, and a run: status, number and count, then r0, lr, pc, the first word of data and
// the flags.
fn ran(rt: &impl Print, code: &[u8], limit: u64) {
    let mut memory = [7u32; 12];
    let started = arm_machine::start(code, &memory, 1, 1);
    let m = started.machine;
    let answer = arm_machine::run(m, code, &mut memory, limit);
    let after = answer.machine;
    let r = after.regs;
    let f = after.flags;
    let _ = print!(rt; " {} {} {}", answer.status, answer.number, answer.count);
    let _ = print!(rt;
        " {:08x} {:08x} {:08x} {:08x} ",
        r[0], after.lr, after.pc, memory[0]
    );
    for (set, letter) in [(f.n, 'N'), (f.z, 'Z'), (f.c, 'C'), (f.v, 'V')] {
        let _ = print!(rt; "{}", flag(set, letter));
    }
    let _ = println!(rt);
}

// A name, and the run of the first bytes of some code.
fn case(rt: &impl Print, name: &str, code: &[u8], length: usize, limit: u64) {
    let _ = print!(rt; "{name}");
    if length <= code.len() {
        ran(rt, &code[..length], limit);
    }
}

fn encodings(rt: &impl Print) {
    encoding(rt, "MOVI r0,5:", Instr::Movi(0, 5));
    encoding(rt, "ADDR r0,r1,r2:", Instr::Addr(2, 1, 0));
    encoding(rt, "SUBR r3,r4,r5:", Instr::Subr(5, 4, 3));
    encoding(rt, "STRI r0 to r7 offset 4:", Instr::Stri(1, 7, 0));
    encoding(rt, "SHRI r0,r0,31:", Instr::Shri(31, 0, 0));
    encoding(rt, "SHRI r0,r0,32:", Instr::Shri(32, 0, 0));
    encoding(rt, "SHRI r0,r0,0:", Instr::Shri(0, 0, 0));
    encoding(rt, "BU to itself:", Instr::Bu(0xFFFF_FFFE));
    encoding(rt, "BL to itself:", Instr::Bl(0xFFFF_FFFE));
    encoding(rt, "BL by -2097152:", Instr::Bl(0xFFE0_0000));
    encoding(rt, "BL by 2097152:", Instr::Bl(2097152));
}

fn runs(rt: &impl Print) {
    // MOVI r0,5; ADDI r0,3; STRI r0 to r7; SVC 0
    let finish = code_of(0x2005, 0x3003, 0x6038, 0xDF00);
    case(rt, "finish:", &finish, 8, 10);
    case(rt, "limit 2:", &finish, 8, 2);
    case(rt, "limit 0:", &finish, 8, 0);
    case(rt, "no code:", &finish, 0, 10);
    case(rt, "a byte short:", &finish, 7, 10);
    // MOVI r1,2; LDRI r0 from r1
    let misaligned = code_of(0x2102, 0x6808, 0xDF00, 0xDF00);
    case(rt, "address 2:", &misaligned, 8, 10);
    // MOVI r1,0; STRI r0 to r1
    let into_code = code_of(0x2100, 0x6008, 0xDF00, 0xDF00);
    case(rt, "store into code:", &into_code, 8, 10);
    // LDRI r0 from r1, which is 0
    let from_code = code_of(0x6808, 0xDF01, 0xABCD, 0x1234);
    case(rt, "load from code:", &from_code, 8, 10);
    // BL to the SVC 2 after it, and its first half alone
    let call = code_of(0xF000, 0xF801, 0x46C0, 0xDF02);
    case(rt, "BL:", &call, 8, 10);
    case(rt, "half a BL:", &call, 2, 10);
    // BL's second half alone
    let alone = code_of(0xF801, 0xDF00, 0xDF00, 0xDF00);
    case(rt, "not listed:", &alone, 8, 10);
}

fn flags(rt: &impl Print) {
    // BEQ, at once: Z is 0 at start
    let first = code_of(0xD000, 0xDF00, 0xDF00, 0xDF00);
    case(rt, "BEQ first:", &first, 8, 1);
    // MOVI r0,1; SHLI r0,31; SUBI r0,1; BLT: the least number is below 1, though the difference is positive
    let least = code_of(0x2001, 0x07C0, 0x3801, 0xDB00);
    case(rt, "least less 1:", &least, 8, 3);
    case(rt, "and BLT:", &least, 8, 4);
    // MOVI r0,0; SUBI r0,0; SHLI r0,0; MOVI r0,5
    let kept = code_of(0x2000, 0x3800, 0x0000, 0x2005);
    case(rt, "0 less 0:", &kept, 8, 2);
    case(rt, "SHLI by nothing:", &kept, 8, 3);
    case(rt, "MOVI:", &kept, 8, 4);
    // NEGR r0,r0 of 0
    let negated = code_of(0x4240, 0xDF00, 0xDF00, 0xDF00);
    case(rt, "NEGR of 0:", &negated, 8, 1);
    // MOVI r0,1; MOVI r1,32; SHL r0,r1, and by 33; ADDPCI r0,0
    let by_32 = code_of(0x2001, 0x2120, 0x4088, 0xA000);
    case(rt, "1 SHL 32:", &by_32, 8, 3);
    case(rt, "ADDPCI:", &by_32, 8, 4);
    let by_33 = code_of(0x2001, 0x2121, 0x4088, 0xA000);
    case(rt, "1 SHL 33:", &by_33, 8, 3);
}

// A run that comes to two halfwords behind a MOVI r0,5.
fn meets(rt: &impl Print, name: &str, h: u16, k: u16) {
    let code = code_of(0x2005, h, k, 0xDF00);
    case(rt, name, &code, 8, 10);
}

// Outside the list: good Armv6-M, by class, then what is undefined or unpredictable.
fn unlisted(rt: &impl Print) {
    meets(rt, "ADDS:", 0x1C00, 0);
    meets(rt, "ASRS:", 0x4100, 0);
    meets(rt, "MOV:", 0x46C0, 0);
    meets(rt, "STRB:", 0x7000, 0);
    meets(rt, "PUSH:", 0xB401, 0);
    meets(rt, "unallocated hint:", 0xBF50, 0);
    meets(rt, "STM:", 0xC001, 0);
    meets(rt, "LDM:", 0xC801, 0);
    meets(rt, "BCS:", 0xD200, 0);
    meets(rt, "MRS:", 0xF3EF, 0x8000);
    meets(rt, "far BL:", 0xF000, 0xD000);
    meets(rt, "UDF:", 0xDE00, 0);
    meets(rt, "CBZ:", 0xB100, 0);
    meets(rt, "PUSH of nothing:", 0xB400, 0);
    meets(rt, "ADD pc,pc:", 0x44FF, 0);
    meets(rt, "MRS into sp:", 0xF3EF, 0x8D00);
    meets(rt, "B.W:", 0xF000, 0x9000);
    meets(rt, "erased:", 0xFFFF, 0xFFFF);
}

fn main(rt: HostRuntime) {
    encodings(&rt);
    runs(&rt);
    flags(&rt);
    unlisted(&rt);
}
