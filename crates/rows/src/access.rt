// Looking at the records of a table, adding to them and changing one.
ghost use Rattle.std.specs.Prelude.{◌≡◌, ℕ, ◌+◌, ◌<◌, ◌≤◌, [], ◌∷◌, ◌++◌, map, length, slice_index_or, slice_set};
ghost use Rattle.std.specs.List.{range_with_len};
ghost use Rattle.rows.specs.Filling.{ChangesBy};
ghost use Rattle.rows.specs.Tables.{records, GivesOfNumbers};

use crate::table::Table;

impl<T: Copy, const N: usize> Table<T, N> {
    // Its records, in order.
    pub fn as_slice(&self) -> &[T]
        ensures are_its_records { result.now ≡ records self.now }
        ensures at_most_as_many_as_places { length result.now ≤ N }
    {
        &self.places[..self.count]
    }

    // Puts a value behind the records.
    pub fn push(&mut self, value: T)
        requires room { length (records self.old) < N }
        ensures adds_it_at_the_end { records self.new ≡ records self.old ++ value ∷ [] }
    {
        self.places[self.count] = value;
        self.count += 1;
    }

    // Puts behind the records what `make` gives of the numbers from 0 on, so many of them.
    pub fn push_each<F: Fn(usize) -> T>(&mut self, count: usize, make: F)
        requires room { length (records self.old) + count ≤ N }
        requires takes_each_number { (i : ℕ) → i < count → F.pre make i }
        ensures adds_them_at_the_end { (g : ℕ → T) → GivesOfNumbers F.Fn make g → records self.new ≡ records self.old ++ map g (range_with_len 0 count) }
    {
        for i in 0..count {
            self.push(make(i));
        }
    }

    // Has a rule change the record at a place. A place beyond the records changes nothing.
    pub fn change<F: FnOnce(&mut T) + Drop>(&mut self, place: usize, rule: F)
        requires can_always_change { F.IsAlwaysCallable rule }
        ensures changes_just_that_record { (g : T → T) (d : T) → ChangesBy F.FnOnce rule g → records self.new ≡ slice_set (records self.old) place (g (slice_index_or (records self.old) place d)) }
    {
        if place < self.count {
            rule(&mut self.places[place]);
        }
    }
}
