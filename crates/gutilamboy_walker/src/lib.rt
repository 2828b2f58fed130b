// The C boundary of the walker: a syntax table run over lent words, its accesses into a lent buffer.
#![tactic(auto)]

ghost use Rattle.std.specs.Prelude.{◌≡◌};
ghost use Rattle.gutilamboy_walker.specs.WalkCall as calls;

// Status, number, rows begun and accesses made into `out`; the entries from number `first` on into `accesses`, four words each.
#[unsafe(no_mangle)]
pub extern "C" fn gutilamboy_walk(
    table: &[u32],
    memory: &mut [u32],
    limit: u64,
    first: u64,
    accesses: &mut [u32],
    out: &mut [u64; 4],
)
    ensures { calls.walked_left out.new memory.new accesses.new
        ≡ calls.walk_call limit first table.now memory.old accesses.old }
{
    let w = walker_run::walk(table, memory, limit, accesses, first);
    *out = [w.status as u64, w.number as u64, w.steps, w.accesses];
}
