//! What a stack does. `live` is the list of its elements, `room` how many it can hold; what the slice
//! holds above the live elements is left open.
ghost use Rattle.std.specs.Prelude.{◌≡◌, [], ◌∷◌, ◌++◌, length, if◌then◌else◌, nat_le, nat_lt, slice_set};
ghost use Rattle.std.specs.List.{slice_get};
ghost use Rattle.stack.specs.Live.{live, room, SameArea};
ghost use Rattle.stack.specs.Ends.{top, below_top, LastInFirstOut};

use super::BoundedStack;

impl<'a, T: Copy> BoundedStack<'a, T> {
    /// An empty stack with the slice's places for its elements.
    pub fn new(items: &'a mut [T]) -> BoundedStack<'a, T>
        ensures lender { result.items.ghost_name ≡ items.entry.ghost_name }
        ensures places { room result ≡ length items.old }
        ensures held { live result ≡ [] }
    {
        BoundedStack { items, count: 0 }
    }

    /// How many elements there are.
    pub fn len(&self) -> usize
        ensures { result ≡ length (live self.now) }
    {
        self.count // the slice's other places are free
    }

    /// Whether there is no place for another element.
    pub fn is_full(&self) -> bool
        ensures { result ≡ nat_le (room self.now) (length (live self.now)) }
    {
        self.items.len() <= self.count
    }

    /// Puts `x` on top, and says whether there was room for it. It answers as a set's `insert` does: nothing is
    /// known of a refusal but that the stack was full.
    pub fn push(&mut self, x: T) -> bool
        ensures area { SameArea self.old self.new }
        ensures answer { result ≡ nat_lt (length (live self.old)) (room self.old) }
        ensures held { live self.new ≡ (if result then live self.old ++ x ∷ [] else live self.old) }
    {
        if self.is_full() {
            return false;
        }
        self.items[self.count] = x;
        self.count += 1;
        true
    }

    /// Takes the top element off, if there is one.
    #[tactic(auto, using(crate::proofs::Lengths::live_length, crate::proofs::Lengths::top_take, crate::proofs::Lengths::below_top_take))]
    pub fn pop(&mut self) -> Option<T>
        ensures area { SameArea self.old self.new }
        ensures answer { result ≡ top (live self.old) }
        ensures held { live self.new ≡ below_top (live self.old) }
    {
        if self.len() == 0 {
            return None;
        }
        self.count -= 1;
        Some(self.items[self.count])
    }

    /// The element at place `i`, counted from the bottom, if there is one.
    pub fn get(&self, i: usize) -> Option<T>
        ensures { result ≡ slice_get (live self.now) i }
    {
        self.elements().get(i).copied()
    }

    /// Puts `x` in place of the element at place `i`, and says whether there was one, as `push` does.
    #[tactic(auto, using(crate::proofs::Lengths::set_live))]
    pub fn set(&mut self, i: usize, x: T) -> bool
        ensures area { SameArea self.old self.new }
        ensures answer { result ≡ nat_lt i (length (live self.old)) }
        ensures held { live self.new ≡ (if result then slice_set (live self.old) i x else live self.old) }
    {
        if i >= self.len() {
            return false;
        }
        self.items[i] = x;
        true
    }

    /// The elements as a slice, from the bottom up.
    pub fn elements(&self) -> &[T]
        ensures { result.now ≡ live self.now }
    {
        let items: &[T] = self.items;
        &items[..self.count]
    }
}

/// A theorem on what `push` and `pop` say they do: last in, first out, for elements of any type.
pub fn last_in_first_out<T>()
    ensures { LastInFirstOut T }
{}
