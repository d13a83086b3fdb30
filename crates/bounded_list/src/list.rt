// The list and its methods.
ghost use Rattle.std.specs.Prelude.{◌≡◌, ◌<◌, ◌≤◌, [], ◌∷◌, ◌++◌, length, slice_set, ◌==◌};

use std::alloc::AllocError;

// At most N items, in the order in which they were added.
// Stays a row of places with a count, once for all types and sizes: memory is fixed, and the library's vectors of fixed room are not `Copy`, as the hosts are.
#[derive(Copy)]
pub struct BoundedList<T: Copy, const N: usize> {
    // the items, and nothing of meaning after them
    places: [T; N],
    // how many there are
    count: usize,
    ghost whole: { length places ≡ N },
    ghost fits: { count ≤ N },
}

// Stays written by hand: the derive is refused over a ghost field of a generic type.
impl<T: Copy, const N: usize> Clone for BoundedList<T, N> {
    ghost is_clone = { λ list clone. clone ≡ list };

    ghost is_infallible = { λ _. Unit {0} };

    fn clone(&self) -> Result<Self, AllocError> {
        Ok(*self)
    }
}

impl<T: Copy, const N: usize> BoundedList<T, N> {
    ghost use Rattle.bounded_list.specs.Items.{items};

    // A list without items; the places hold what is given until they are used.
    pub fn empty(unused: T) -> BoundedList<T, N>
        ensures { items result ≡ [] }
    {
        BoundedList {
            places: [unused; N],
            count: 0,
        }
    }

    // The list of a slice's items.
    pub fn from_slice(slice: &[T], unused: T) -> BoundedList<T, N>
        requires { length slice.now ≤ N }
        ensures { items result ≡ slice.now }
    {
        let mut places = [unused; N];
        places[..slice.len()].copy_from_slice(slice);
        BoundedList {
            places,
            count: slice.len(),
        }
    }

    // The items.
    pub fn as_slice(&self) -> &[T]
        ensures { result.now ≡ items self.now }
    {
        &self.places[..self.count]
    }

    // How many items there are.
    pub fn len(&self) -> usize
        ensures count { result ≡ length (items self.now) }
        ensures bound { result ≤ N }
    {
        self.as_slice().len()
    }

    // Lets all items go, in one write.
    pub fn clear(&mut self)
        ensures { items self.new ≡ [] }
    {
        self.count = 0;
    }

    // Whether no item more can be added.
    pub fn is_full(&self) -> bool
        ensures { result ≡ (length (items self.now) == N) }
    {
        self.count == N
    }

    // Adds an item at the end.
    pub fn push(&mut self, item: T)
        requires { length (items self.old) < N }
        ensures { items self.new ≡ items self.old ++ item ∷ [] }
    {
        self.places[self.count] = item;
        self.count += 1;
    }

    // Puts an item in the place of another.
    pub fn set(&mut self, index: usize, item: T)
        requires { index < length (items self.old) }
        ensures { items self.new ≡ slice_set (items self.old) index item }
    {
        self.places[index] = item;
    }
}
