// The archive libgutilamboy_walker.a: `gutilamboy_walker`'s function for callers in C, with its clause.
#![tactic(auto)]

ghost use Rattle.std.specs.Prelude.{◌≡◌};
ghost use Rattle.gutilamboy_walker.specs.WalkCall as calls;

#[unsafe(no_mangle)]
pub extern "C" fn gutilamboy_walk(
    table: &[u32],
    memory: &mut [u32],
    limit: u64,
    first: u64,
    accesses: &mut [u32],
    out: &mut [u64; 4],
)
    ensures { calls.walked_left out.new memory.new accesses.new
        ≡ calls.walk_call limit first table.now memory.old accesses.old }
{
    gutilamboy_walker::gutilamboy_walk(table, memory, limit, first, accesses, out)
}
