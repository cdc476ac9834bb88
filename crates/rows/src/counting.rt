// Counting records.
ghost use Rattle.std.specs.Prelude.{◌≡◌, Bool, count_by};
ghost use Rattle.rows.specs.Filling.{TakesEach, GivesOfEach};

// How many of the row pass a test. It adds what each gives, 1 or 0, since a row is counted for each record of another: a chain
// of `filter` and `count` comes back for each that passes, which takes twice the time.
pub fn count_where<T, F: Fn(&T) -> bool>(row: &[T], test: F) -> usize
    requires tests_each_item { TakesEach F.Fn test row.now }
    ensures counts_those_that_pass { (p : T → Bool) → GivesOfEach F.Fn test p → result ≡ count_by p row.now }
{
    let mut count = 0;
    for item in row {
        count += usize::from(test(item));
    }
    count
}
