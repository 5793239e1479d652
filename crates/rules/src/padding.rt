//! Arrays filled from slices.
ghost use Rattle.std.specs.Prelude.{◌≡◌, ◌-◌, ◌++◌, length, replicate, take};

use std::array;

/// The first `N` of these items, and a blank at each place behind them.
pub fn padded<T: Copy, const N: usize>(items: &[T], blank: T) -> [T; N]
    ensures { result ≡ take N items.now ++ replicate (N - length items.now) blank }
{
    array::from_fn(|place| items.get(place).copied().unwrap_or(blank))
}
