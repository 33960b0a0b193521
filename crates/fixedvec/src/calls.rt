// The calls on a list.
ghost use Rattle.std.specs.Prelude.{◌≡◌, ◌<◌, ◌≤◌, ◌↔◌, [], ◌∷◌, ◌++◌, length, take, set, replicate, min, IsOk, OnOk, OnErr, IfErr, IfNone};
ghost use Rattle.std.specs.List.{slice_get};
ghost use Rattle.fixedvec.specs.Items.{items};

use super::FixedVec;

impl<T: Copy, const N: usize> FixedVec<T, N> {
    // A list without items, with a blank in each place.
    pub fn new(blank: T) -> FixedVec<T, N>
        ensures empty { items result ≡ [] }
    {
        FixedVec::filled(blank, 0)
    }

    // A list of `count` copies of an item, or of N if that is less.
    pub fn filled(item: T, count: usize) -> FixedVec<T, N>
        ensures items { items result ≡ replicate (min count N) item }
    {
        FixedVec {
            at: [item; N],
            len: count.min(N),
        }
    }

    // Adds an item behind the others, or hands it back if N items are there.
    pub fn push(&mut self, item: T) -> Result<(), T>
        ensures answer { IsOk result ↔ (length (items self.old) < N) }
        ensures items { OnOk result (items self.new ≡ items self.old ++ item ∷ []) }
        ensures handed_back { IfErr result (λ back. back ≡ item) }
        ensures kept { OnErr result (self.new ≡ self.old) }
    {
        if self.len == N {
            return Err(item);
        }
        self.at[self.len] = item;
        self.len += 1;
        Ok(())
    }

    // Keeps the first n items.
    pub fn truncate(&mut self, n: usize)
        ensures items { items self.new ≡ take n (items self.old) }
    {
        self.len = self.len.min(n);
    }

    // Puts an item in the place of item i and hands that one out. From the length on it does nothing.
    pub fn replace(&mut self, i: usize, item: T) -> Option<T>
        ensures answer { result ≡ slice_get (items self.old) i }
        ensures items { items self.new ≡ set (items self.old) i item }
        ensures kept { IfNone result (self.new ≡ self.old) }
    {
        // A test and an index: tried with `get_mut` and `mem::replace`, the promises did not close.
        if i >= self.len {
            return None;
        }
        let before = self.at[i];
        self.at[i] = item;
        Some(before)
    }

    // How many items there are.
    pub fn len(&self) -> usize
        ensures count { result ≡ length (items self.now) }
        ensures within { result ≤ N }
    {
        self.as_slice().len()
    }

    // Item i, or none from the length on.
    pub fn get(&self, i: usize) -> Option<T>
        ensures found { result ≡ slice_get (items self.now) i }
    {
        self.as_slice().get(i).copied()
    }

    // The items in order.
    pub fn as_slice(&self) -> &[T]
        ensures items { result.now ≡ items self.now }
    {
        &self.at[..self.len]
    }
}

#[cfg(test)]
mod tests {
    use super::*;

    #[test]
    fn fills_and_shrinks(rt: HostRuntime) {
        let mut list = FixedVec::<u8, 2>::new(9);
        assert_eq!(rt; list.get(0), None);
        assert_eq!(rt; list.replace(0, 5), None);
        assert_eq!(rt; list.push(1), Ok(()));
        assert_eq!(rt; list.push(2), Ok(()));
        assert_eq!(rt; list.push(3), Err(3));
        assert_eq!(rt; list.replace(1, 4), Some(2));
        assert_eq!(rt; list.as_slice(), [1, 4].as_slice());
        list.truncate(3);
        assert_eq!(rt; list.len(), 2);
        list.truncate(1);
        assert_eq!(rt; list.as_slice(), [1].as_slice());
        list = FixedVec::filled(7, 1);
        assert_eq!(rt; list.as_slice(), [7].as_slice());
        list = FixedVec::filled(7, 3);
        assert_eq!(rt; list.as_slice(), [7, 7].as_slice());
    }

    #[test]
    fn no_room(rt: HostRuntime) {
        let mut list = FixedVec::<u8, 0>::new(9);
        assert_eq!(rt; list.push(1), Err(1));
        assert_eq!(rt; list.len(), 0);
    }
}
