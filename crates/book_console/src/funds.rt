// The text that lists funds.
ghost use Rattle.std.specs.Prelude.{map, Some, string_bytes};
ghost use Rattle.std.specs.List.{flat_map};
ghost use Rattle.console.specs.Texts.{Appends};
ghost use Rattle.roll.specs.Standing.{balance_of};
ghost use Rattle.book_console.specs.Lines.{funds_line};

use roll::Account;
use std::alloc::AllocError;
use std::fmt;

// The line of an account: its funds and its overnight money.
#[derive(Clone, Copy)]
struct Funds<'a>(&'a Account);

impl fmt::Display for Funds<'_> {
    ghost output = { λ line. Some (funds_line (balance_of line.0.now)) };

    fn fmt<W: fmt::Write>(&self, f: &mut fmt::Formatter<W>) -> fmt::Result {
        let account = self.0;
        writeln!(
            f,
            "{} {} {}",
            account.code, account.funds, account.overnight
        )
    }
}

// The funds of the accounts, in their order. One function for this loop and that of `console`'s answers is no plainer: it
// would take what is printed of an item as a closure, and its contract would have to say what every such closure prints,
// where here it is one line.
pub(crate) fn print_funds(accounts: &[Account], out: &mut String) -> Result<(), AllocError>
    ensures { Appends result (string_bytes out.old) (string_bytes out.new) (flat_map funds_line (map balance_of accounts.now)) }
{
    for account in accounts {
        write!(out, "{}", Funds(account))?;
    }
    Ok(())
}
