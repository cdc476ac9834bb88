// The book itself.
ghost use Rattle.std.specs.Prelude.{◌≡◌, ◌≤◌, length};
ghost use Rattle.roll.specs.Holdable.{Holdable};
ghost use Rattle.roll.specs.Standing.{standing};
ghost use Rattle.book.specs.Holdings.{holdings, staked_above, owing_above};

use crate::parts::{Outstanding, Period, Termination};
use basis::Basis;
use image::{MOST_ACCOUNTS, MOST_PARTICIPANTS};
use roll::Roll;

// What a book always keeps stands in its ghost fields: it holds of every book, before its first opening too. No `Model`: a
// refused opening leaves every field and every spare place as it was, and a view would say less.
#[derive(Drop)]
pub struct Book<B: Basis> {
    // what participants weigh
    pub(crate) basis: B,
    pub(crate) roll: Roll,
    pub(crate) period: Period,
    // What is owed and outstanding stands beside the roll's tables, place by place, and not in them: the roll is a layer that
    // bases read and that must not show debts, and without a heap each table has its full length.
    // what each participant owes this period
    pub(crate) owed: [u64; MOST_PARTICIPANTS],
    // what each account has lost and not got back
    pub(crate) outstanding: [Outstanding; MOST_ACCOUNTS],
    // how many declarations there are: without a heap, each row of `outstanding` has places for all eight
    pub(crate) declarations: usize,
    pub(crate) termination: Termination,
    // how many entries are numbered, and how many lines of the journal are used
    pub(crate) entries: usize,
    pub(crate) lines: usize,
    // tables of full length
    ghost full_owed: { length owed ≡ 64 },
    ghost full_outstanding: { length outstanding ≡ 128 },
    // the roll is one that a book can hold: few records, each field within its limits, codes apart, owners known, nobody above the
    // limit in its accounts, and no more defaults counted than participants marked
    ghost holdable: { Holdable (standing roll) },
    // nobody has more at stake than the limit: in its accounts, or outstanding to it
    ghost nobody_above: { staked_above (standing roll).participants (holdings (standing roll).accounts outstanding) ≡ 0 },
    ghost owed_within: { owing_above owed ≡ 0 },
    ghost few_declarations: { declarations ≤ 8 },
    ghost entries_written: { entries ≤ lines },
    ghost lines_within: { lines ≤ 4096 },
}
