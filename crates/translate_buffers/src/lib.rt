// Zeroing and copying the lent buffers.
#![tactic(auto)]

ghost use Rattle.std.specs.Prelude.{◌≡◌, ◌++◌, ◌-◌, ◌≤◌, length, take, drop, replicate};

// The cells from n on are zeroed. By a loop: `fill` requires a clone that can't fail (`is_infallible`), which `T: Copy` doesn't promise.
pub fn clear<T: Copy + From<u8>>(cells: &mut [T], n: usize)
    ensures { (zero : T) × T.from_gives 0 zero × (cells.new ≡ take n cells.old ++ replicate (length cells.old - n) zero) }
{
    let zero = T::from(0);
    for i in n..cells.len() {
        cells[i] = zero;
    }
}

// The first n cells are copied.
pub fn copy<T: Copy>(from: &[T], to: &mut [T], n: usize)
    requires { (n ≤ length from.now) × (n ≤ length to.old) }
    ensures { to.new ≡ take n from.now ++ drop n to.old }
{
    to[..n].copy_from_slice(&from[..n]);
}
