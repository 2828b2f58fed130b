// Halfwords that are no instruction of the list: undefined or unpredictable in Armv6-M, or good Armv6-M of some class.
#![tactic(auto)]

ghost use Rattle.std.specs.Prelude.{◌≡◌};
ghost use Rattle.arm_classes.specs.Classes as spec;

// The line of the manual's table of 16-bit instructions, or the next number.
fn class_of(h: u16) -> u32
    ensures { result ≡ spec.class_of h }
{
    match h {
        0x0000..=0x3FFF => 1,
        0x4000..=0x43FF => 2,
        0x4400..=0x47FF => 3,
        0x4800..=0x4FFF => 4,
        0x5000..=0x9FFF => 5,
        0xA000..=0xA7FF => 6,
        0xA800..=0xAFFF => 7,
        0xB000..=0xBFFF => 8,
        0xC000..=0xC7FF => 9,
        0xC800..=0xCFFF => 10,
        0xD000..=0xDFFF => 11,
        0xE000..=0xE7FF => 12,
        _ => 13,
    }
}

// A register that MRS and MSR move: not sp, not pc.
fn general(r: u16) -> bool
    ensures { result ≡ spec.general r }
{
    (r != 13) & (r != 15)
}

// A special register that they move from or to.
fn special(m: u16) -> bool
    ensures { result ≡ spec.special m }
{
    (0..=3).contains(&m) | (5..=9).contains(&m) | (m == 16) | (m == 20)
}

fn mrs(h: u16, k: u16) -> bool
    ensures { result ≡ spec.MRS h k }
{
    (h == 0xF3EF) & (0x8000..=0x8FFF).contains(&k) & general(k / 256 % 16) & special(k % 256)
}

fn msr(h: u16, k: u16) -> bool
    ensures { result ≡ spec.MSR h k }
{
    (0xF380..=0xF38F).contains(&h)
        & (0x8800..=0x88FF).contains(&k)
        & general(h % 16)
        & special(k % 256)
}

// DSB, DMB, ISB.
fn barrier(h: u16, k: u16) -> bool
    ensures { result ≡ spec.barrier h k }
{
    (h == 0xF3BF) & (0x8F40..=0x8F6F).contains(&k)
}

// BL with other J bits than the list's.
fn far_call(k: u16) -> bool
    ensures { result ≡ spec.far_call k }
{
    (0xD000..=0xDFFF).contains(&k) | (0xF000..=0xF7FF).contains(&k)
}

// Both halves of a 32-bit instruction.
fn pair_defined(h: u16, k: u16) -> bool
    ensures { result ≡ spec.pair_defined h k }
{
    mrs(h, k) | msr(h, k) | barrier(h, k) | far_call(k)
}

// Whether Armv6-M defines halfwords that are not the list's; an arm or more for each line of its table.
fn defined(h: u16, k: u16) -> bool
    ensures { result ≡ spec.defined h k }
{
    match h {
        // ADDS, SUBS, CMP
        0x1C00..=0x1FFF | 0x2800..=0x2FFF => true,
        // ASRS to TST, CMP, CMN, BICS
        0x4100..=0x423F | 0x4280..=0x42FF | 0x4380..=0x43BF => true,
        // ADD, CMP, MOV with high registers; BX, BLX
        0x4400..=0x44FE | 0x4540..=0x4577 | 0x4600..=0x46FF => true,
        0x4580..=0x45F7 => h % 8 != 7,
        0x4700..=0x4777 => h % 8 == 0,
        0x4780..=0x47F7 => h % 8 == 0,
        // bytes and halfwords loaded and stored
        0x5200..=0x57FF | 0x5A00..=0x5FFF | 0x7000..=0x8FFF => true,
        // SXTH to UXTB, PUSH; CPS; REV, REV16, REVSH, POP and BKPT; hints
        0xB200..=0xB2FF | 0xB401..=0xB5FF => true,
        0xB660..=0xB67F => h % 16 == 2,
        0xBA00..=0xBA7F | 0xBAC0..=0xBAFF | 0xBC01..=0xBEFF => true,
        0xBF00..=0xBFFF => h % 16 == 0,
        // STM, LDM
        0xC000..=0xC7FF => h % 256 != 0,
        0xC800..=0xCFFF => h % 256 != 0,
        // B with the other conditions
        0xD200..=0xD9FF | 0xDC00..=0xDDFF => true,
        0xF000..=0xF7FF => pair_defined(h, k),
        _ => false,
    }
}

// The class, 1 to 13, of halfwords that decode to no instruction of the list and that Armv6-M defines; none where it leaves them undefined
// or unpredictable.
pub fn classify(h: u16, k: u16) -> Option<u32>
    ensures { result ≡ spec.classify_of h k }
{
    if defined(h, k) {
        return Some(class_of(h));
    }
    None
}
