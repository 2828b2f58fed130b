// The C boundary: translate, start, step and run over lent slices and lent arrays of words.
// A slice is a pointer and a length; an array is a pointer to as many words as its type says.
#![tactic(auto)]

ghost use Rattle.std.specs.Prelude.{◌≡◌};
ghost use Rattle.arm_machine.specs.MachineRun as runs;
ghost use Rattle.gutilamboy.specs.Calls as calls;

use gutilamboy_numbers::{state_of, state_words};

// Into `out`: status, place, tokens, rows, data, depth and the image's bytes; the rows into `table`, the image into `code`.
#[unsafe(no_mangle)]
pub extern "C" fn gutilamboy_translate(
    source: &[u8],
    table: &mut [u32],
    code: &mut [u8],
    out: &mut [u32; 7],
)
    ensures { calls.translate_left out.new table.new code.new
        ≡ calls.translate_call source.now table.old code.old }
{
    let t = translate_source::translate(source, table, code);
    *out = [t.status, t.place, t.tokens, t.rows, t.data, t.depth, t.code];
}

// The status; the state into `state`.
#[unsafe(no_mangle)]
pub extern "C" fn gutilamboy_start(
    code: &[u8],
    memory: &[u32],
    declared: u32,
    depth: u32,
    state: &mut [u32; 12],
) -> u32
    ensures { calls.start_left result state.new ≡ calls.start_call code.now memory.now declared depth }
{
    let started = arm_machine::start(code, memory, declared, depth);
    *state = state_words(started.machine);
    started.status
}

// Status and number into `out`; the state from and to `state`, which stays as it came where no instruction completes.
#[unsafe(no_mangle)]
pub extern "C" fn gutilamboy_step(
    code: &[u8],
    memory: &mut [u32],
    state: &mut [u32; 12],
    out: &mut [u32; 2],
)
    ensures { calls.left out.new state.new memory.new ≡ calls.step_call code.now memory.old state.old }
{
    let stepped = arm_machine::step(state_of(state), code, memory);
    *out = [stepped.status, stepped.number];
    if stepped.status != 0 {
        return;
    }
    *state = state_words(stepped.machine);
}

// 1 for a run that an SVC ended: it counts, and completes nothing. By the status's number, which C gets.
fn svc_count(status: u32) -> u64
    ensures { result ≡ runs.svc_count status }
{
    if status == 1 { 1 } else { 0 }
}

// Status, number and count into `out`; the state from and to `state`, as for a step.
#[unsafe(no_mangle)]
pub extern "C" fn gutilamboy_run(
    code: &[u8],
    memory: &mut [u32],
    limit: u64,
    state: &mut [u32; 12],
    out: &mut [u64; 3],
)
    ensures { calls.left out.new state.new memory.new ≡ calls.run_call limit code.now memory.old state.old }
{
    let ran = arm_machine::run(state_of(state), code, memory, limit);
    *out = [ran.status as u64, ran.number as u64, ran.count];
    if ran.count <= svc_count(ran.status) {
        return;
    }
    *state = state_words(ran.machine);
}
