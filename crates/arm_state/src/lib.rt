// The machine's state and its changes: each is a method by value that hands back the new state, or the old one with a fault.
// `Machine` is the state as callers hold it, `Core` the same as a run holds it.
#![tactic(auto)]

ghost use Rattle.std.specs.Prelude.{◌≡◌, ◌+◌, ◌*◌, ◌<◌, eqb};
ghost use Rattle.arm_state.specs.State as state;
ghost use Rattle.arm_state.specs.Effects as spec;
ghost use Rattle.arm_state.specs.Stops as stops;
ghost use Rattle.arm_state.specs.Lookup as lookup;
ghost use Rattle.arm_state.specs.MachineCore as core;
ghost use Rattle.arm_word.specs.Choice.{pick};

use arm_word::{
    Sum, add, complement, differ, last_left, last_right, shift_left, shift_right,
    shift_right_signed, sub, with_carry,
};

// The flags of Armv6-M's manual: negative, zero, carry, overflow.
#[derive(Clone, Copy, Default, PartialEq, Eq)]
pub struct Flags {
    pub n: bool,
    pub z: bool,
    pub c: bool,
    pub v: bool,
}

#[derive(Clone, Copy, Default, PartialEq, Eq)]
pub struct Machine {
    pub regs: [u32; 8],
    pub sp: u32,
    pub lr: u32,
    pub pc: u32,
    pub flags: Flags,
}

// What a step did: status 0 one instruction, 1 an SVC, whose number is `number`, 21 to 24 a fault, 26 one whose class is
// `number`, 31 and 32 a refusal. Numbers, and no enum: it is what C gets, and what `Demand1` of theorem_demands and `Demand3` of
// theorem_simulation speak of.
#[derive(Clone, Copy)]
pub struct Stepped {
    pub machine: Machine,
    pub status: u32,
    pub number: u32,
}

// The state with r0 to r7 as fields, which the compiler keeps apart: an array that is passed by value goes through memory
// as a whole at each call, and a run takes several times as long.
#[derive(Clone, Copy)]
pub struct Core {
    pub r0: u32,
    pub r1: u32,
    pub r2: u32,
    pub r3: u32,
    pub r4: u32,
    pub r5: u32,
    pub r6: u32,
    pub r7: u32,
    pub sp: u32,
    pub lr: u32,
    pub pc: u32,
    pub flags: Flags,
}

// Why an instruction faults; `number` has document 01's number.
#[derive(Clone, Copy, PartialEq, Eq)]
pub enum Fault {
    // pc odd, or a byte outside code.
    Fetch,
    // Halfwords that Armv6-M leaves undefined or unpredictable.
    Undefined,
    // An address that is not a multiple of 4.
    Misaligned,
    // A byte outside memory.
    Outside,
    // An instruction that Armv6-M defines and the list doesn't have, with its class.
    Unsupported(u32),
}

// What ends a run before its limit.
#[derive(Clone, Copy, PartialEq, Eq)]
pub enum Stop {
    Svc(u8),
    Fault(Fault),
}

// The state that an instruction stopped in, which is as it was before it.
#[derive(Clone, Copy)]
pub struct Stopped {
    pub core: Core,
    pub stop: Stop,
}

// The words that a program of d declared words and depth n needs.
pub fn needed(d: u32, n: u32) -> u64
    ensures { result ≡ state.needed d n }
{
    (d as u64) + 2 * (n as u64) + 8
}

// No discriminants and no `From`, here and in `Stop`: with a payload in one case there is no `as`, and a `From` would be the same `match`.
impl Fault {
    pub fn number(self) -> u32
        ensures { result ≡ stops.fault_number self }
    {
        match self {
            Fault::Fetch => 21,
            Fault::Undefined => 22,
            Fault::Misaligned => 23,
            Fault::Outside => 24,
            Fault::Unsupported(_) => 26,
        }
    }

    // The class of an instruction that isn't supported, 0 of any other fault.
    pub fn class(self) -> u32
        ensures { result ≡ stops.class_of self }
    {
        match self {
            Fault::Unsupported(class) => class,
            _ => 0,
        }
    }
}

impl Stop {
    pub fn status(self) -> u32
        ensures { result ≡ stops.status_of self }
    {
        match self {
            Stop::Svc(_) => 1,
            Stop::Fault(fault) => fault.number(),
        }
    }

    // The SVC's number, or the fault's class.
    pub fn number(self) -> u32
        ensures { result ≡ stops.number_of self }
    {
        match self {
            Stop::Svc(u) => u as u32,
            Stop::Fault(fault) => fault.class(),
        }
    }
}

impl Stepped {
    // A fault or a refusal by its number, whatever that is: the state stays as it was.
    pub fn fault(machine: Machine, f: u32) -> Stepped
        ensures { result ≡ spec.fault machine f }
    {
        Stepped {
            machine,
            status: f,
            number: 0,
        }
    }
}

impl Machine {
    pub const DATA_BASE: u32 = 0x2000_0000;

    // The state at the start.
    pub fn fresh(d: u32, n: u32) -> Machine
        ensures { result ≡ state.fresh_of d n }
    {
        let bytes = (4 * needed(d, n) % 0x1_0000_0000) as u32;
        Machine {
            regs: [0, 0, 0, 0, 0, 0, 0, Machine::DATA_BASE],
            sp: add(Machine::DATA_BASE, bytes),
            lr: 0,
            pc: 0,
            flags: Flags::default(),
        }
    }

    // The state of a refused start.
    pub fn zeros() -> Machine
        ensures { result ≡ state.zeros }
    {
        Machine::default()
    }
}

// N and Z of a result, C and V as they are given.
fn flags_of(r: u32, c: bool, v: bool) -> Flags
    ensures { result ≡ state.flags_of r c v }
{
    Flags {
        n: r >= 0x8000_0000,
        z: r == 0,
        c,
        v,
    }
}

// C after a shift by n places: the old one if n is 0, else the last bit out.
fn carry_of(n: u32, old: bool, last: bool) -> bool
    ensures { result ≡ pick (eqb n 0) old last }
{
    if n == 0 { old } else { last }
}

fn choose(test: bool, a: u32, b: u32) -> u32
    ensures { result ≡ pick test a b }
{
    if test { a } else { b }
}

// The same state as a run holds it.
impl From<Machine> for Core {
    ghost from_gives = { λ m c. core.whole c ≡ m };

    fn from(machine: Machine) -> Core {
        let r = machine.regs;
        Core {
            r0: r[0],
            r1: r[1],
            r2: r[2],
            r3: r[3],
            r4: r[4],
            r5: r[5],
            r6: r[6],
            r7: r[7],
            sp: machine.sp,
            lr: machine.lr,
            pc: machine.pc,
            flags: machine.flags,
        }
    }
}

// The same state as callers hold it.
impl From<Core> for Machine {
    ghost from_gives = { λ c m. m ≡ core.whole c };

    fn from(core: Core) -> Machine {
        Machine {
            regs: [
                core.r0, core.r1, core.r2, core.r3, core.r4, core.r5, core.r6, core.r7,
            ],
            sp: core.sp,
            lr: core.lr,
            pc: core.pc,
            flags: core.flags,
        }
    }
}

impl Core {
    pub fn reg(self, r: u8) -> u32
        ensures { result ≡ state.reg (core.whole self) r }
    {
        match r {
            0 => self.r0,
            1 => self.r1,
            2 => self.r2,
            3 => self.r3,
            4 => self.r4,
            5 => self.r5,
            6 => self.r6,
            7 => self.r7,
            _ => 0,
        }
    }

    // The next instruction, of one halfword.
    pub fn next(mut self) -> Core
        ensures { core.whole result ≡ state.next (core.whole self) }
    {
        self.pc = add(self.pc, 2);
        self
    }

    // A register takes a word, and the flags stay.
    pub fn takes(self, d: u8, v: u32) -> Core
        ensures { core.whole result ≡ state.takes (core.whole self) d v }
    {
        let flags = self.flags;
        Core {
            r0: choose(d == 0, v, self.r0),
            r1: choose(d == 1, v, self.r1),
            r2: choose(d == 2, v, self.r2),
            r3: choose(d == 3, v, self.r3),
            r4: choose(d == 4, v, self.r4),
            r5: choose(d == 5, v, self.r5),
            r6: choose(d == 6, v, self.r6),
            r7: choose(d == 7, v, self.r7),
            sp: self.sp,
            lr: self.lr,
            pc: add(self.pc, 2),
            flags,
        }
    }

    // A register takes a result, and these are the flags after it.
    fn result(self, d: u8, v: u32, flags: Flags) -> Core
        ensures { core.whole result ≡ state.result (core.whole self) d v flags }
    {
        let mut m = self.takes(d, v);
        m.flags = flags;
        m
    }

    // N and Z of a result; C and V stay.
    pub fn sets(self, d: u8, r: u32) -> Core
        ensures { core.whole result ≡ state.sets (core.whole self) d r }
    {
        let f = self.flags;
        self.result(d, r, flags_of(r, f.c, f.v))
    }

    // All four, of a sum.
    fn summed(self, d: u8, s: Sum) -> Core
        ensures { core.whole result ≡ state.summed (core.whole self) d s }
    {
        self.result(d, s.word, flags_of(s.word, s.carry, s.overflow))
    }

    pub fn adds(self, d: u8, x: u32, y: u32) -> Core
        ensures { core.whole result ≡ state.adds (core.whole self) d x y }
    {
        self.summed(d, with_carry(x, y, false))
    }

    pub fn subtracts(self, d: u8, x: u32, y: u32) -> Core
        ensures { core.whole result ≡ state.subtracts (core.whole self) d x y }
    {
        self.summed(d, with_carry(x, complement(y), true))
    }

    // N, Z and C of a shift by n places; by none, C stays. V stays.
    fn shifted(self, d: u8, r: u32, n: u32, last: bool) -> Core
        ensures { core.whole result ≡ state.shifted (core.whole self) d r n last }
    {
        let f = self.flags;
        self.result(d, r, flags_of(r, carry_of(n, f.c, last), f.v))
    }

    // Three shifts and no generic one: each differs in two functions, which a caller would have to hand in as closures.
    pub fn shifts_left(self, d: u8, x: u32, n: u32) -> Core
        ensures { core.whole result ≡ state.shifts_left (core.whole self) d x n }
    {
        self.shifted(d, shift_left(x, n), n, last_left(x, n))
    }

    pub fn shifts_right(self, d: u8, x: u32, n: u32) -> Core
        ensures { core.whole result ≡ state.shifts_right (core.whole self) d x n }
    {
        self.shifted(d, shift_right(x, n), n, last_right(x, n))
    }

    pub fn shifts_right_signed(self, d: u8, x: u32, n: u32) -> Core
        ensures { core.whole result ≡ state.shifts_right_signed (core.whole self) d x n }
    {
        self.shifted(d, shift_right_signed(x, n), n, last_right(x, n))
    }

    // N and V differ.
    pub fn less(self) -> bool
        ensures { result ≡ state.less (core.whole self) }
    {
        let f = self.flags;
        differ(f.n, f.v)
    }

    // sp moves.
    pub fn moves(mut self, sp: u32) -> Core
        ensures { core.whole result ≡ state.moves (core.whole self) sp }
    {
        self.pc = add(self.pc, 2);
        self.sp = sp;
        self
    }

    // To k halfwords from address + 4.
    pub fn jump(mut self, k: u32) -> Core
        ensures { core.whole result ≡ state.jump (core.whole self) k }
    {
        let from = add(self.pc, 4);
        self.pc = add(from, add(k, k));
        self
    }

    // The same with lr = address + 5.
    pub fn link(self, k: u32) -> Core
        ensures { core.whole result ≡ state.link (core.whole self) k }
    {
        let lr = add(self.pc, 5);
        let mut m = self.jump(k);
        m.lr = lr;
        m
    }

    // address + 4, rounded down to 4.
    pub fn here(self) -> u32
        ensures { result ≡ state.here (core.whole self) }
    {
        let a = add(self.pc, 4);
        sub(a, a % 4)
    }

    // An SVC: the state stays as it was.
    pub fn ended(self, u: u8) -> Stopped
        ensures { core.stopped result ≡ spec.ended (core.whole self) u }
    {
        Stopped {
            core: self,
            stop: Stop::Svc(u),
        }
    }

    // A fault: the state stays as it was.
    pub fn fault(self, fault: Fault) -> Stopped
        ensures { core.stopped result ≡ core.faulted (core.whole self) fault }
    {
        Stopped {
            core: self,
            stop: Stop::Fault(fault),
        }
    }

    // A fault by an instruction that Armv6-M defines and the list doesn't have, with its class.
    pub fn unsupported(self, class: u32) -> Stopped
        ensures { core.stopped result ≡ spec.unsupported (core.whole self) class }
    {
        self.fault(Fault::Unsupported(class))
    }

    // Here and in `store` document 01 asks for `let else`, and no `?`.
    pub fn load(self, d: u8, a: u32, code: &[u8], memory: &[u32]) -> Result<Core, Stopped>
        ensures { core.turned result memory.now ≡ (spec.load code.now memory.now (core.whole self) d a).after }
    {
        let Some(at) = align(a) else {
            return Err(self.fault(Fault::Misaligned));
        };
        let Some(v) = word_at(code, memory, at) else {
            return Err(self.fault(Fault::Outside));
        };
        Ok(self.takes(d, v))
    }

    pub fn store(self, d: u8, a: u32, memory: &mut [u32]) -> Result<Core, Stopped>
        ensures { core.turned result memory.new ≡ (spec.store memory.old (core.whole self) d a).after }
    {
        let Some(at) = align(a) else {
            return Err(self.fault(Fault::Misaligned));
        };
        let Some(i) = slot_of(at, memory.len()) else {
            return Err(self.fault(Fault::Outside));
        };
        memory[i] = self.reg(d);
        Ok(self.next())
    }
}

// An address that is a multiple of 4.
fn align(a: u32) -> Option<u32>
    ensures { result ≡ spec.aligned_of a }
{
    if a % 4 == 0 { Some(a) } else { None }
}

// The data word, by number, at an address; n words are lent.
fn slot_of(a: u32, n: usize) -> Option<usize>
    ensures { result ≡ spec.slot_of a n }
{
    if a < Machine::DATA_BASE {
        return None;
    }
    let i = (sub(a, Machine::DATA_BASE) / 4) as usize;
    if i < n { Some(i) } else { None }
}

// The word at an address, of code or of data.
fn word_at(code: &[u8], memory: &[u32], a: u32) -> Option<u32>
    ensures { result ≡ lookup.word_at code.now memory.now a }
{
    let i = a as usize;
    if i + 4 <= code.len() {
        return Some(u32::from_le_bytes([code[i], code[i + 1], code[i + 2], code[i + 3]]));
    }
    let j = slot_of(a, memory.len())?;
    Some(memory[j])
}

pub fn times4(u: u8) -> u32
    ensures { result ≡ 4 * u }
{
    4 * (u as u32)
}
