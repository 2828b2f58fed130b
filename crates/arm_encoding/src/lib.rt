// The instructions of the subset, and their halfwords.
#![tactic(auto)]

ghost use Rattle.std.specs.Prelude.{◌≡◌, ◌+◌, ◌*◌, ◌/◌, ◌%◌, ◌≤◌, ◌<◌};
ghost use Rattle.arm_encoding.specs.Encoding as spec;
ghost use Rattle.arm_encoding.specs.Encoding.{form, encoded, encode_of, decode_of, find, table};

#[derive(Clone, Copy, PartialEq, Eq)]
pub enum Instr {
    Shli(u8, u8, u8),
    Shri(u8, u8, u8),
    Ashri(u8, u8, u8),
    Addr(u8, u8, u8),
    Subr(u8, u8, u8),
    Movi(u8, u8),
    Addi(u8, u8),
    Subi(u8, u8),
    Ldrpci(u8, u8),
    Strspi(u8, u8),
    Ldrspi(u8, u8),
    Addpci(u8, u8),
    Addspi(u8, u8),
    Andr(u8, u8),
    Xorr(u8, u8),
    Shl(u8, u8),
    Shr(u8, u8),
    Negr(u8, u8),
    Orr(u8, u8),
    Mul(u8, u8),
    Mvnr(u8, u8),
    Str(u8, u8, u8),
    Ldr(u8, u8, u8),
    Stri(u8, u8, u8),
    Ldri(u8, u8, u8),
    Incsp(u8),
    Decsp(u8),
    Svc(u8),
    Beq(u32),
    Bne(u32),
    Bge(u32),
    Blt(u32),
    Bu(u32),
    Bl(u32),
}

// The halfwords of an instruction, in their order.
#[derive(Clone, Copy, PartialEq, Eq)]
pub enum Halfwords {
    One(u16),
    Two(u16, u16),
}

// A form's first halfword, and what its three fields stay below, from the highest.
#[derive(Clone, Copy)]
struct Limits {
    base: u32,
    high: u32,
    middle: u32,
    low: u32,
}

impl Limits {
    // The halfword of a form with these fields; none if one is out of range.
    fn put(self, a: u32, b: u32, c: u32) -> Option<Halfwords>
        requires { self.base + self.high * self.middle * self.low ≤ 65536 }
        ensures { encoded result ≡ spec.put (form self.base self.high self.middle self.low) a b c }
    {
        if a >= self.high {
            return None;
        }
        if b >= self.middle {
            return None;
        }
        if c >= self.low {
            return None;
        }
        let fields = (a * self.middle + b) * self.low + c;
        Some(Halfwords::One((self.base + fields) as u16))
    }
}

// +64a +8b +c.
fn three(base: u32, high: u32, a: u8, b: u8, c: u8) -> Option<Halfwords>
    requires { base + high * 8 * 8 ≤ 65536 }
    ensures { encoded result ≡ spec.put (form base high 8 8) a b c }
{
    let limits = Limits {
        base,
        high,
        middle: 8,
        low: 8,
    };
    limits.put(a as u32, b as u32, c as u32)
}

// The same with a shift's count, 1 to 32.
fn shift(base: u32, n: u8, b: u8, c: u8) -> Option<Halfwords>
    requires { base + 32 * 8 * 8 ≤ 65536 }
    ensures { encoded result ≡ spec.put (form base 32 8 8) (spec.swap32 n) b c }
{
    three(base, 32, swap32(n), b, c)
}

// +256b +c, or +8b +c.
fn pair(base: u32, low: u32, b: u8, c: u8) -> Option<Halfwords>
    requires { base + 1 * 8 * low ≤ 65536 }
    ensures { encoded result ≡ spec.put (form base 1 8 low) 0 b c }
{
    let limits = Limits {
        base,
        high: 1,
        middle: 8,
        low,
    };
    limits.put(0, b as u32, c as u32)
}

// A form of one field.
fn alone(base: u32, low: u32, c: u32) -> Option<Halfwords>
    requires { base + 1 * 1 * low ≤ 65536 }
    ensures { encoded result ≡ spec.put (form base 1 1 low) 0 0 c }
{
    let limits = Limits {
        base,
        high: 1,
        middle: 1,
        low,
    };
    limits.put(0, 0, c)
}

// +c.
fn single(base: u32, low: u32, c: u8) -> Option<Halfwords>
    requires { base + 1 * 1 * low ≤ 65536 }
    ensures { encoded result ≡ spec.put (form base 1 1 low) 0 0 c }
{
    alone(base, low, c as u32)
}

// A distance.
fn branch(base: u32, half: u32, k: u32) -> Option<Halfwords>
    requires { (0 < half) × (base + 1 * 1 * (2 * half) ≤ 65536) }
    ensures { encoded result ≡ spec.put (form base 1 1 (2 * half)) 0 0 (spec.narrow half k) }
{
    alone(base, 2 * half, narrow(half, k))
}

// A shift's count and its field: 32 is stored as 0, and 0 is out of range.
fn swap32(n: u8) -> u8
    ensures { result ≡ spec.swap32 n }
{
    if n == 0 {
        return 32;
    }
    if n == 32 {
        return 0;
    }
    n
}

// A word from -half to half - 1 as a field below 2 half; any other becomes 2 half.
fn narrow(half: u32, d: u32) -> u32
    requires { (0 < half) × (half ≤ 2097152) }
    ensures { result ≡ spec.narrow half d }
{
    if d < half {
        return d;
    }
    if d < 0xFFFF_FFFF - half + 1 {
        return 2 * half;
    }
    d - (0xFFFF_FFFF - 2 * half + 1)
}

// BL, two halfwords.
fn long(k: u32) -> Option<Halfwords>
    ensures { encoded result ≡ spec.put_long (spec.narrow 2097152 k) }
{
    let f = narrow(2097152, k);
    if f >= 4194304 {
        return None;
    }
    Some(Halfwords::Two((0xF000 + f / 2048) as u16, (0xF800 + f % 2048) as u16))
}

// The halfwords of an instruction; none if a field is out of range, which is 35 for C (`encoded`).
pub fn encode(i: Instr) -> Option<Halfwords>
    ensures { encoded result ≡ encode_of i }
{
    match i {
        Instr::Shli(n, l, d) => three(0x0000, 32, n, l, d),
        Instr::Shri(n, l, d) => shift(0x0800, n, l, d),
        Instr::Ashri(n, l, d) => shift(0x1000, n, l, d),
        Instr::Addr(r, l, d) => three(0x1800, 8, r, l, d),
        Instr::Subr(r, l, d) => three(0x1A00, 8, r, l, d),
        Instr::Movi(d, u) => pair(0x2000, 256, d, u),
        Instr::Addi(d, u) => pair(0x3000, 256, d, u),
        Instr::Subi(d, u) => pair(0x3800, 256, d, u),
        Instr::Ldrpci(d, u) => pair(0x4800, 256, d, u),
        Instr::Strspi(d, u) => pair(0x9000, 256, d, u),
        Instr::Ldrspi(d, u) => pair(0x9800, 256, d, u),
        Instr::Addpci(d, u) => pair(0xA000, 256, d, u),
        Instr::Addspi(d, u) => pair(0xA800, 256, d, u),
        Instr::Andr(r, d) => pair(0x4000, 8, r, d),
        Instr::Xorr(r, d) => pair(0x4040, 8, r, d),
        Instr::Shl(r, d) => pair(0x4080, 8, r, d),
        Instr::Shr(r, d) => pair(0x40C0, 8, r, d),
        Instr::Negr(r, d) => pair(0x4240, 8, r, d),
        Instr::Orr(r, d) => pair(0x4300, 8, r, d),
        Instr::Mul(r, d) => pair(0x4340, 8, r, d),
        Instr::Mvnr(r, d) => pair(0x43C0, 8, r, d),
        Instr::Str(i, b, d) => three(0x5000, 8, i, b, d),
        Instr::Ldr(i, b, d) => three(0x5800, 8, i, b, d),
        Instr::Stri(u, b, d) => three(0x6000, 32, u, b, d),
        Instr::Ldri(u, b, d) => three(0x6800, 32, u, b, d),
        Instr::Incsp(u) => single(0xB000, 128, u),
        Instr::Decsp(u) => single(0xB080, 128, u),
        Instr::Svc(u) => single(0xDF00, 256, u),
        Instr::Beq(k) => branch(0xD000, 128, k),
        Instr::Bne(k) => branch(0xD100, 128, k),
        Instr::Bge(k) => branch(0xDA00, 128, k),
        Instr::Blt(k) => branch(0xDB00, 128, k),
        Instr::Bu(k) => branch(0xE000, 1024, k),
        Instr::Bl(k) => long(k),
    }
}

// A field below 2 half as a word from -half to half - 1.
fn widen(half: u32, f: u32) -> u32
    requires { (half ≤ 2097152) × (f < 2 * half) }
    ensures { result ≡ spec.widen half f }
{
    if f < half {
        return f;
    }
    f + (0xFFFF_FFFF - 2 * half + 1)
}

// The fields of a halfword, each arm of the decoder works out its own: one that stands at the multiples of `unit`, below `size` ..
fn field(h: u16, unit: u16, size: u16) -> u8
    requires { (0 < unit) × (0 < size) × (size ≤ 256) }
    ensures { result ≡ h / unit % size }
{
    (h / unit % size) as u8
}

// .. and the lowest one.
fn low(h: u16, size: u16) -> u8
    requires { (0 < size) × (size ≤ 256) }
    ensures { result ≡ h % size }
{
    (h % size) as u8
}

// ADDR, SUBR.
fn arithmetic(h: u16) -> Option<Instr>
    requires { h / 2048 ≡ 3 }
    ensures { result ≡ find table h }
{
    match h / 512 {
        0b0001100 => Some(Instr::Addr(field(h, 64, 8), field(h, 8, 8), low(h, 8))),
        0b0001101 => Some(Instr::Subr(field(h, 64, 8), field(h, 8, 8), low(h, 8))),
        _ => None,
    }
}

// ANDR to MVNR.
fn logical(h: u16) -> Option<Instr>
    requires { h / 2048 ≡ 8 }
    ensures { result ≡ find table h }
{
    match h / 64 {
        0b0100000000 => Some(Instr::Andr(field(h, 8, 8), low(h, 8))),
        0b0100000001 => Some(Instr::Xorr(field(h, 8, 8), low(h, 8))),
        0b0100000010 => Some(Instr::Shl(field(h, 8, 8), low(h, 8))),
        0b0100000011 => Some(Instr::Shr(field(h, 8, 8), low(h, 8))),
        0b0100001001 => Some(Instr::Negr(field(h, 8, 8), low(h, 8))),
        0b0100001100 => Some(Instr::Orr(field(h, 8, 8), low(h, 8))),
        0b0100001101 => Some(Instr::Mul(field(h, 8, 8), low(h, 8))),
        0b0100001111 => Some(Instr::Mvnr(field(h, 8, 8), low(h, 8))),
        _ => None,
    }
}

// STR. Apart from LDR, since each requires its own first digits, by which its rows are found in the table.
fn stored(h: u16) -> Option<Instr>
    requires { h / 2048 ≡ 10 }
    ensures { result ≡ find table h }
{
    match h / 512 {
        0b0101000 => Some(Instr::Str(field(h, 64, 8), field(h, 8, 8), low(h, 8))),
        _ => None,
    }
}

// LDR.
fn loaded(h: u16) -> Option<Instr>
    requires { h / 2048 ≡ 11 }
    ensures { result ≡ find table h }
{
    match h / 512 {
        0b0101100 => Some(Instr::Ldr(field(h, 64, 8), field(h, 8, 8), low(h, 8))),
        _ => None,
    }
}

// INCSP, DECSP.
fn pointer(h: u16) -> Option<Instr>
    requires { h / 2048 ≡ 22 }
    ensures { result ≡ find table h }
{
    match h / 128 {
        0b101100000 => Some(Instr::Incsp(low(h, 128))),
        0b101100001 => Some(Instr::Decsp(low(h, 128))),
        _ => None,
    }
}

// A distance of 8 bits.
fn near(h: u16) -> u32
    ensures { result ≡ spec.widen 128 (h % 256) }
{
    widen(128, (h % 256) as u32)
}

// BEQ, BNE.
fn equality(h: u16) -> Option<Instr>
    requires { h / 2048 ≡ 26 }
    ensures { result ≡ find table h }
{
    match h / 256 {
        0b11010000 => Some(Instr::Beq(near(h))),
        0b11010001 => Some(Instr::Bne(near(h))),
        _ => None,
    }
}

// BGE, BLT, SVC.
fn order(h: u16) -> Option<Instr>
    requires { h / 2048 ≡ 27 }
    ensures { result ≡ find table h }
{
    match h / 256 {
        0b11011010 => Some(Instr::Bge(near(h))),
        0b11011011 => Some(Instr::Blt(near(h))),
        0b11011111 => Some(Instr::Svc(low(h, 256))),
        _ => None,
    }
}

// BL.
fn far(h: u16, second: u16) -> Option<Instr>
    requires { h / 2048 ≡ 30 }
    ensures { result ≡ decode_of h second }
{
    if second < 0xF800 {
        return None;
    }
    let f = ((h - 0xF000) as u32) * 2048 + ((second - 0xF800) as u32);
    Some(Instr::Bl(widen(2097152, f)))
}

// The instruction of a halfword, and of the one after it for F000 to F7FF.
pub fn decode(h: u16, second: u16) -> Option<Instr>
    ensures { result ≡ decode_of h second }
{
    match h / 2048 {
        0b00000 => Some(Instr::Shli(field(h, 64, 32), field(h, 8, 8), low(h, 8))),
        0b00001 => Some(Instr::Shri(swap32(field(h, 64, 32)), field(h, 8, 8), low(h, 8))),
        0b00010 => Some(Instr::Ashri(swap32(field(h, 64, 32)), field(h, 8, 8), low(h, 8))),
        0b00011 => arithmetic(h),
        0b00100 => Some(Instr::Movi(field(h, 256, 8), low(h, 256))),
        0b00110 => Some(Instr::Addi(field(h, 256, 8), low(h, 256))),
        0b00111 => Some(Instr::Subi(field(h, 256, 8), low(h, 256))),
        0b01000 => logical(h),
        0b01001 => Some(Instr::Ldrpci(field(h, 256, 8), low(h, 256))),
        0b01010 => stored(h),
        0b01011 => loaded(h),
        0b01100 => Some(Instr::Stri(field(h, 64, 32), field(h, 8, 8), low(h, 8))),
        0b01101 => Some(Instr::Ldri(field(h, 64, 32), field(h, 8, 8), low(h, 8))),
        0b10010 => Some(Instr::Strspi(field(h, 256, 8), low(h, 256))),
        0b10011 => Some(Instr::Ldrspi(field(h, 256, 8), low(h, 256))),
        0b10100 => Some(Instr::Addpci(field(h, 256, 8), low(h, 256))),
        0b10101 => Some(Instr::Addspi(field(h, 256, 8), low(h, 256))),
        0b10110 => pointer(h),
        0b11010 => equality(h),
        0b11011 => order(h),
        0b11100 => Some(Instr::Bu(widen(1024, (h % 2048) as u32))),
        0b11110 => far(h, second),
        _ => None,
    }
}
