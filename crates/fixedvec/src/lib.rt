// A list that keeps its items in an array of its own and is copied as a whole, as arrayvec's ArrayVec is not.
#![tactic(auto)]

ghost use Rattle.std.specs.Prelude.{◌≡◌, ◌≤◌, length, ⊤};

use std::alloc::AllocError;

mod calls;

// A list of at most N items.
pub struct FixedVec<T, const N: usize> {
    at: [T; N],
    len: usize,
    ghost within: { len ≤ N },
}

// Clone is not derived for a generic struct with a ghost field.
impl<T: Copy, const N: usize> Clone for FixedVec<T, N> {
    ghost is_clone = { λ v w. w ≡ v };

    ghost is_infallible = { λ _. ⊤ };

    fn clone(&self) -> Result<FixedVec<T, N>, AllocError> {
        Ok(*self)
    }
}

impl<T: Copy, const N: usize> Copy for FixedVec<T, N> {}
