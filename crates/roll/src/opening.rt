// Opening an account.
ghost use Rattle.roll.specs.Limits.{Gives, account_fault, opening_balance};
ghost use Rattle.roll.specs.Standing.{balance_of};

use crate::account::Account;
use crate::field::FieldFault;
use crate::limits::Limited;
use image::AccountRecord;

// A record with a field outside its limits opens no account, but tells the byte where the field begins.
impl TryFrom<AccountRecord> for Account {
    type Error = FieldFault;

    ghost try_from_gives = { Gives account_fault balance_of opening_balance };

    fn try_from(source: AccountRecord) -> Result<Account, FieldFault> {
        source.tested()?;
        Ok(Account {
            code: source.code,
            owner: source.owner,
            funds: source.funds,
            overnight: source.overnight,
        })
    }
}
