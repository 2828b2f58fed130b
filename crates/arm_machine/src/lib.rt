// The machine's public calls: start, step, run.
#![tactic(auto)]

ghost use Rattle.std.specs.Prelude.{◌≡◌, ◌+◌, ◌<◌, ◌≤◌, length};
ghost use Rattle.arm_classes.specs.Classes as classes;
ghost use Rattle.arm_state.specs.MachineCore as cores;
ghost use Rattle.arm_state.specs.Effects as exec_spec;
ghost use Rattle.arm_machine.specs.Start as starts;
ghost use Rattle.arm_machine.specs.Step as steps;
ghost use Rattle.arm_machine.specs.MachineRun as runs;
ghost use Rattle.arm_machine.specs.Refusals as refusals;

use arm_state::{Core, Fault, Machine, Stepped, Stop, Stopped};

// Why a call is refused, with the numbers of specs/Refusals.antt.
#[derive(Clone, Copy, PartialEq, Eq)]
pub enum Refusal {
    CodeTooLong = 31,
    MemoryTooLong = 32,
    // Fewer lent words than needed.
    MemoryTooShort = 33,
    // Declared words above 8,192, or a depth above 32.
    ProgramTooLarge = 34,
}

// What a run did (as a step's status and number; 0 where the limit was reached), and how many instructions it completed.
// Numbers, and no enum, as in `Started` and in `Stepped`: it is what C gets, and what `Demand1` of theorem_demands and
// `Demand3` of theorem_simulation speak of.
#[derive(Clone, Copy)]
pub struct Ran {
    pub machine: Machine,
    pub status: u32,
    pub number: u32,
    pub count: u64,
}

#[derive(Clone, Copy)]
pub struct Started {
    pub status: u32,
    pub machine: Machine,
}

const CODE_LIMIT: usize = 65536;

const MEMORY_LIMIT: usize = 16384;

// The number that document 01 gives it.
impl From<Refusal> for u32 {
    ghost from_gives = { λ refusal n. n ≡ refusals.number_of refusal };

    fn from(refusal: Refusal) -> u32 {
        refusal as u32
    }
}

// The halfword at i, the lower byte first.
fn half(code: &[u8], i: usize) -> u16
    requires { i + 2 ≤ length code.now }
    ensures { result ≡ steps.half_at code.now i }
{
    u16::from_le_bytes([code[i], code[i + 1]])
}

// The halfword h at i with the one after it, which is 0 where h does not ask for one; none if that is outside code.
fn with_second(code: &[u8], i: usize, h: u16) -> Option<(u16, u16)>
    requires { i < 4294967296 }
    ensures { result ≡ steps.with_second code.now i h }
{
    if h < 0xF000 {
        return Some((h, 0));
    }
    if h >= 0xF800 {
        return Some((h, 0));
    }
    if i + 4 > code.len() {
        return None;
    }
    Some((h, half(code, i + 2)))
}

// The halfwords at pc.
fn fetch(code: &[u8], pc: u32) -> Option<(u16, u16)>
    ensures { result ≡ steps.fetch_of code.now pc }
{
    if pc % 2 != 0 {
        return None;
    }
    let i = pc as usize;
    if i + 2 > code.len() {
        return None;
    }
    with_second(code, i, half(code, i))
}

// Halfwords that are no instruction of the list.
fn unlisted(core: Core, h: u16, k: u16) -> Stopped
    ensures { cores.stopped result ≡ steps.unlisted (cores.whole core) (classes.classify_of h k) }
{
    match arm_classes::classify(h, k) {
        Some(class) => core.unsupported(class),
        None => core.fault(Fault::Undefined),
    }
}

// Fetch, decode, execute. The loop of `run` is its only caller, and it is decode's and execute's: the compiler builds such a
// function into its caller, and the state stays where it is from one instruction to the next. Document 01 asks for `let else` here.
fn once(core: Core, code: &[u8], memory: &mut [u32]) -> Result<Core, Stopped>
    ensures { cores.turned result memory.new ≡ (steps.once_of code.now memory.old (cores.whole core)).after }
{
    let Some((h, k)) = fetch(code, core.pc) else {
        return Err(core.fault(Fault::Fetch));
    };
    let Some(i) = arm_encoding::decode(h, k) else {
        return Err(unlisted(core, h, k));
    };
    arm_execute::execute(core, i, code, memory)
}

// What every call asks of the lengths.
fn check_lengths(code: &[u8], memory: &[u32]) -> Result<(), Refusal>
    ensures { refusals.answered result ≡ steps.refusal_of code.now memory.now }
{
    if code.len() > CODE_LIMIT {
        return Err(Refusal::CodeTooLong);
    }
    if memory.len() > MEMORY_LIMIT {
        return Err(Refusal::MemoryTooLong);
    }
    Ok(())
}

// What a run hands back that an instruction stopped.
fn stopped_after(stopped: Stopped, count: u64) -> Ran
    ensures { result ≡ runs.ran (cores.stopped stopped) count }
{
    let Stopped { core, stop } = stopped;
    Ran {
        machine: Machine::from(core),
        status: stop.status(),
        number: stop.number(),
        count,
    }
}

// What a run hands back that is refused: the state as it was, and nothing done.
fn refused(machine: Machine, refusal: Refusal) -> Ran
    ensures { result ≡ runs.ran (exec_spec.fault machine (refusals.number_of refusal)) 0 }
{
    let stepped = Stepped::fault(machine, u32::from(refusal));
    Ran {
        machine: stepped.machine,
        status: stepped.status,
        number: stepped.number,
        count: 0,
    }
}

// At most `limit` instructions.
pub fn run(machine: Machine, code: &[u8], memory: &mut [u32], limit: u64) -> Ran
    ensures { runs.run_after result memory.new ≡ runs.run_of limit code.now memory.old machine }
{
    if let Err(refusal) = check_lengths(code, memory) {
        return refused(machine, refusal);
    }
    let mut core = Core::from(machine);
    for k in 0..limit {
        match once(core, code, memory) {
            Ok(next) => core = next,
            Err(stopped) => {
                if let Stop::Svc(_) = stopped.stop {
                    return stopped_after(stopped, k + 1);
                }
                return stopped_after(stopped, k);
            }
        }
    }
    Ran {
        machine: Machine::from(core),
        status: 0,
        number: 0,
        count: limit,
    }
}

// One instruction: a run of at most one.
pub fn step(machine: Machine, code: &[u8], memory: &mut [u32]) -> Stepped
    ensures { exec_spec.after result memory.new ≡ (steps.step_of code.now memory.old machine).after }
{
    let ran = run(machine, code, memory, 1);
    Stepped {
        machine: ran.machine,
        status: ran.status,
        number: ran.number,
    }
}

// What a start asks.
fn check_start(code: &[u8], memory: &[u32], declared: u32, depth: u32) -> Result<(), Refusal>
    ensures { refusals.answered result ≡ starts.start_refusal code.now memory.now declared depth }
{
    check_lengths(code, memory)?;
    if declared > 8192 {
        return Err(Refusal::ProgramTooLarge);
    }
    if depth > 32 {
        return Err(Refusal::ProgramTooLarge);
    }
    if (memory.len() as u64) < arm_state::needed(declared, depth) {
        return Err(Refusal::MemoryTooShort);
    }
    Ok(())
}

// The state to begin with, for an image of `declared` words of data and depth `depth`.
pub fn start(code: &[u8], memory: &[u32], declared: u32, depth: u32) -> Started
    ensures { result ≡ starts.start_of code.now memory.now declared depth }
{
    match check_start(code, memory, declared, depth) {
        Ok(()) => Started {
            status: 0,
            machine: Machine::fresh(declared, depth),
        },
        Err(refusal) => Started {
            status: u32::from(refusal),
            machine: Machine::zeros(),
        },
    }
}
