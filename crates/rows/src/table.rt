// Tables of records in memory of a fixed size.
ghost use Rattle.std.specs.Prelude.{◌≡◌, ◌≤◌, ⊤};

use std::alloc::AllocError;

// At most N records in their order: the first of the places, as many as are counted. The ported `ArrayVec` is no `Copy`, as the
// image and the roll that are made of tables are.
pub struct Table<T, const N: usize> {
    pub(crate) places: [T; N],
    pub(crate) count: usize,
    ghost within: { count ≤ N },
}

// A copy is the table itself: it needs no memory, and so never fails. Written by hand, since `Clone` cannot be derived for a
// struct with a ghost field and a type parameter.
impl<T: Copy, const N: usize> Clone for Table<T, N> {
    ghost is_clone = { λ s r. r ≡ s };

    ghost is_infallible = { λ _. ⊤ };

    fn clone(&self) -> Result<Table<T, N>, AllocError> {
        Ok(*self)
    }
}

impl<T: Copy, const N: usize> Copy for Table<T, N> {}
