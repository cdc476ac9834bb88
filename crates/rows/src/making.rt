// Making tables.
ghost use Rattle.std.specs.Prelude.{◌≡◌, ℕ, ◌<◌, min, [], map, take};
ghost use Rattle.std.specs.List.{range_with_len};
ghost use Rattle.rows.specs.Filling.{TakesEach, GivesOfEach};
ghost use Rattle.rows.specs.Tables.{records, GivesOfNumbers};

use crate::filling::fill;
use crate::table::Table;

impl<T: Copy, const N: usize> Table<T, N> {
    // A table without records; the blank stands in its places. It is handed in, here and below, since each kind of record has
    // its own as a constant. Marked, so that the compiler sees there that a blank is all zeros: else each place is written by
    // itself, and the table is copied on its way.
    #[inline(always)]
    pub fn empty(blank: T) -> Table<T, N>
        ensures has_no_records { records result ≡ [] }
    {
        Table {
            places: [blank; N],
            count: 0,
        }
    }

    // What `make` gives of each item of a row, in order, as far as there are places; the blank stands in the spare ones.
    pub fn from_row<S, F: Fn(&S) -> T>(row: &[S], blank: T, make: F) -> Table<T, N>
        requires takes_each_item { TakesEach F.Fn make (take N row.now) }
        ensures holds_what_is_made { (g : S → T) → GivesOfEach F.Fn make g → records result ≡ map g (take N row.now) }
    {
        let mut places = [blank; N];
        fill(row, &mut places, make);
        Table {
            places,
            count: row.len().min(N),
        }
    }

    // What `make` gives of the numbers from 0 on, so many of them, as far as there are places.
    pub fn tabulate<F: Fn(usize) -> T>(count: usize, blank: T, make: F) -> Table<T, N>
        requires takes_each_number { (i : ℕ) → i < min count N → F.pre make i }
        ensures holds_what_is_made { (g : ℕ → T) → GivesOfNumbers F.Fn make g → records result ≡ map g (range_with_len 0 (min count N)) }
    {
        let mut places = [blank; N];
        let within = count.min(N);
        // By number: of what is written through an iterator over the places, a proof knows nothing. The library's
        // `array::from_fn` asks that the array fits in memory, which nothing gives for every N.
        for i in 0..within {
            places[i] = make(i);
        }
        Table {
            places,
            count: within,
        }
    }
}
