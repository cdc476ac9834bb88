// Tables of records in memory of a fixed size.
use rows::Table;
use std::test::Fail;

// Three places, and a row of four items: the last has no place.
#[test]
fn a_copy_has_the_records_that_found_a_place(rt: HostRuntime) -> Result<(), Fail> {
    let table: Table<u8, 3> = Table::from_row(&[1u8, 2, 3, 4], 0, |item| *item);
    let copy = table.clone()?;
    assert_eq!(rt; copy.as_slice(), [1, 2, 3].as_slice());
    Ok(())
}

#[test]
fn one_record_is_changed_and_none_beyond_them(rt: HostRuntime) {
    let mut table: Table<u8, 3> = Table::from_row(&[1u8, 2], 0, |item| *item);
    table.change(1, |record| *record = 7);
    table.change(2, |record| *record = 9);
    assert_eq!(rt; table.as_slice(), [1, 7].as_slice());
}
