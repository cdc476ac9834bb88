// Reading a roll from its image.
ghost use Rattle.std.specs.Prelude.{◌≡◌, ◌+◌, ◌*◌, ◌≤◌, [], length, IfOk, OnOk, None as no_fault};
ghost use Rattle.std.specs.List.{AllZip};
ghost use Rattle.std.specs.Result.{result_map_both};
ghost use Rattle.rows.specs.Tables.{records as table_records};
ghost use Rattle.roll.specs.declared.field.FieldFault.{FieldFault as Outside};
ghost use Rattle.roll.specs.Limits.{first_fault, told, roll_of, roll_bytes};
ghost use Rattle.roll.specs.Read.{WithinLimits};
ghost use Rattle.roll.specs.Standing.{standing};

use crate::account::Account;
use crate::fault::RollFault;
use crate::field::FieldFault;
use crate::limits::Limited;
use crate::participant::Participant;
use crate::table::Roll;
use image::{HEAD, ParticipantRecord, Wide};
use rows::Table;

// Puts into an empty table what the records give of a table that begins at a place, or tells the first field of one that is
// outside its limits. The table is lent, since one that is handed out is copied on its way.
fn take_in<R: Limited, T: TryFrom<R, Error = FieldFault> + Copy, const N: usize>(
    records: &[R],
    from: usize,
    table: &mut Table<T, N>,
) -> Result<(), RollFault>
    requires in_image { from + R.WIDTH * length records.now ≤ 4423 }
    requires room { length records.now ≤ N }
    requires empty { table_records table.old ≡ [] }
    requires takes_faultless { (r : R) (x : T) → T.try_from_gives r (Ok x) → R.faulty r ≡ no_fault }
    requires tells_the_fault { (r : R) (fault : Outside) → T.try_from_gives r (Err fault) → R.faulty r ≡ Some fault.offset }
    ensures refuses_the_first_fault { result ≡ told (first_fault R.faulty R.WIDTH from records.now) }
    ensures takes_in_each { OnOk result (AllZip (λ r x. T.try_from_gives r (Ok x)) records.now (table_records table.new)) }
{
    for (i, record) in records.iter().enumerate() {
        let place = from + R::WIDTH * i;
        let taken = T::try_from(*record).map_err(
            |fault|
                requires { place ≤ 4423 }
            { RollFault::Field((place + usize::from(fault.offset)) as u16) },
        )?;
        table.push(taken);
    }
    Ok(())
}

// The roll that an image gives, or the first fault of the image or of its fields.
pub fn read(bytes: &[u8]) -> Result<Roll, RollFault>
    ensures reads_as_defined { result_map_both standing (λ fault. fault) result ≡ roll_of bytes.now }
    ensures records_have_the_bytes_read { IfOk result (λ roll. roll_bytes (standing roll) ≡ bytes.now) }
    ensures fields_are_within_limits { IfOk result (λ roll. WithinLimits (standing roll)) }
{
    let image = image::read(bytes)?;
    let mut roll = Roll {
        participants: Table::empty(Participant::BLANK),
        accounts: Table::empty(Account::BLANK),
        defaults: 0,
    };
    let records = image.participants();
    take_in(records, HEAD, &mut roll.participants)?;
    let first = HEAD + ParticipantRecord::WIDTH * records.len();
    take_in(image.accounts(), first, &mut roll.accounts)?;
    Ok(roll)
}
