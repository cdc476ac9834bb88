// Filling places that are lent.
ghost use Rattle.std.specs.Prelude.{◌≡◌, ◌++◌, map, length, take, drop};
ghost use Rattle.rows.specs.Filling.{TakesEach, GivesOfEach};

// Writes what `make` gives of each item of the row, in order, into the places from the first on, as far as both go; spare
// places stay.
pub fn fill<S, T: Copy, F: Fn(&S) -> T>(row: &[S], places: &mut [T], make: F)
    requires takes_each_item { TakesEach F.Fn make (take (length places.old) row.now) }
    ensures writes_what_is_made { (g : S → T) → GivesOfEach F.Fn make g → places.new ≡ map g (take (length places.old) row.now) ++ drop (length row.now) places.old }
{
    let within = &row[..row.len().min(places.len())];
    // By number: of what is written through an iterator over the places, a proof knows nothing.
    for (i, item) in within.iter().enumerate() {
        places[i] = make(item);
    }
}
