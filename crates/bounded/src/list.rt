//! The list, told by the entries that it holds and the places that it has.

ghost use Rattle.std.specs.Prelude.{◌≡◌, ◌<◌, ◌≤◌, [], ◌∷◌, ◌++◌, length, MatchOption, MatchResult, ◌==◌, slice_index_or};

/// The entries stand at the front of the places, in the order in which they came.
///
/// A buffer with a length beside it, since the list lies in memory that is lent to it, and takes none from the heap.
#[derive(Drop)]
pub struct Bounded<'a, T> {
    places: &'a mut [T],
    len: usize,
    ghost fits: { len ≤ length places.now },
}

impl<'a, T: Copy> Bounded<'a, T> {
    ghost use Rattle.bounded.specs.Entries.{entries, room};

    /// A list with no entries, and a place for each of the slice's.
    pub fn new(places: &'a mut [T]) -> Bounded<'a, T>
        ensures empty { entries result ≡ [] }
        ensures room { room result ≡ length places.old }
    {
        Bounded { places, len: 0 }
    }

    /// The entries, in order.
    pub fn entries(&self) -> &[T]
        ensures { result.now ≡ entries self.now }
    {
        &self.places[..self.len]
    }

    /// How many entries there are.
    pub fn len(&self) -> usize
        ensures { result ≡ length (entries self.now) }
    {
        self.entries().len()
    }

    /// How many places there are.
    pub fn room(&self) -> usize
        ensures { result ≡ room self.now }
    {
        self.places.len()
    }

    /// Whether each place holds an entry.
    pub fn is_full(&self) -> bool
        ensures { result ≡ (length (entries self.now) == room self.now) }
    {
        self.len() == self.room()
    }

    /// The entry at a position, counted from 0.
    pub fn get(&self, at: usize) -> Option<T>
        ensures { MatchOption result (length (entries self.now) ≤ at) (λ x. (at < length (entries self.now)) × (x ≡ slice_index_or (entries self.now) at x)) }
    {
        self.entries().get(at).copied()
    }

    /// Appends an entry, or hands it back where the list is full.
    pub fn push(&mut self, entry: T) -> Result<(), T>
        ensures room { room self.new ≡ room self.old }
        ensures entries { MatchResult result
            (λ _. (length (entries self.old) < room self.old) × (entries self.new ≡ entries self.old ++ (entry ∷ [])))
            (λ back. (length (entries self.old) ≡ room self.old) × (back ≡ entry) × (entries self.new ≡ entries self.old)) }
    {
        if self.is_full() {
            return Err(entry);
        }
        self.places[self.len] = entry;
        self.len += 1;
        Ok(())
    }
}
