// The archive libgutilamboy.a: `gutilamboy`'s functions for callers in C, each with its clause.
#![tactic(auto)]

ghost use Rattle.std.specs.Prelude.{◌≡◌};
ghost use Rattle.gutilamboy.specs.Calls as calls;

#[unsafe(no_mangle)]
pub extern "C" fn gutilamboy_translate(
    source: &[u8],
    table: &mut [u32],
    code: &mut [u8],
    out: &mut [u32; 7],
)
    ensures { calls.translate_left out.new table.new code.new
        ≡ calls.translate_call source.now table.old code.old }
{
    gutilamboy::gutilamboy_translate(source, table, code, out)
}

#[unsafe(no_mangle)]
pub extern "C" fn gutilamboy_start(
    code: &[u8],
    memory: &[u32],
    declared: u32,
    depth: u32,
    state: &mut [u32; 12],
) -> u32
    ensures { calls.start_left result state.new ≡ calls.start_call code.now memory.now declared depth }
{
    gutilamboy::gutilamboy_start(code, memory, declared, depth, state)
}

#[unsafe(no_mangle)]
pub extern "C" fn gutilamboy_step(
    code: &[u8],
    memory: &mut [u32],
    state: &mut [u32; 12],
    out: &mut [u32; 2],
)
    ensures { calls.left out.new state.new memory.new ≡ calls.step_call code.now memory.old state.old }
{
    gutilamboy::gutilamboy_step(code, memory, state, out)
}

#[unsafe(no_mangle)]
pub extern "C" fn gutilamboy_run(
    code: &[u8],
    memory: &mut [u32],
    limit: u64,
    state: &mut [u32; 12],
    out: &mut [u64; 3],
)
    ensures { calls.left out.new state.new memory.new ≡ calls.run_call limit code.now memory.old state.old }
{
    gutilamboy::gutilamboy_run(code, memory, limit, state, out)
}
