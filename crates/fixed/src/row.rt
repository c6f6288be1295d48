// The type of a row, with what holds of each of its values.
ghost use Rattle.std.specs.Prelude.{◌≡◌, ◌≤◌, length};

use std::alloc::AllocError;

// At most N items. The first `count` places hold them: an array with a count, as the engine takes no memory from a heap.
pub struct Row<T, const N: usize> {
    pub(super) places: [T; N],
    pub(super) count: usize,
    ghost long: { length places ≡ N },
    ghost few: { count ≤ N },
}

// By hand: no derive writes it for a type with a parameter and a ghost field.
impl<T: Copy, const N: usize> Clone for Row<T, N> {
    ghost is_infallible = { λ _. Unit {0} };

    ghost is_clone = { λ row copy. copy ≡ row };

    fn clone(&self) -> Result<Row<T, N>, AllocError> {
        Ok(*self)
    }
}

impl<T: Copy, const N: usize> Copy for Row<T, N> {}
