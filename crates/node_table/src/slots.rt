//! Arrays of what may be there.

ghost use Rattle.std.specs.Prelude.{◌≡◌, ℕ, None, length, slice_index_or};

use std::array;

/// An array in which nothing stands, for what is kept by a number.
pub fn nothing<T, const N: usize>() -> [Option<T>; N]
    ensures len { length result ≡ N }
    ensures none { (i : ℕ) → slice_index_or result i None ≡ None }
{
    array::from_fn(|_| None)
}
