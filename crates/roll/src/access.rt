// Looking at a roll, and marking a participant.
#![tactic(auto, unfolding(crate::specs::Standing::standing))]

ghost use Rattle.std.specs.Prelude.{◌≡◌, ◌≤◌, [], map, length};
ghost use Rattle.roll.specs.Marks.{marked_at};
ghost use Rattle.roll.specs.Standing.{balance_of, standing, held_by, money_of};

use crate::account::Account;
use crate::participant::Participant;
use crate::table::Roll;
use rows::Table;

impl Roll {
    // A roll without records. Marked as `Table::empty` is, and for the same reason.
    #[inline(always)]
    pub fn empty() -> Roll
        ensures has_no_participants { (standing result).participants ≡ [] }
        ensures has_no_accounts { (standing result).accounts ≡ [] }
        ensures has_no_defaults { (standing result).defaults ≡ 0 }
    {
        Roll {
            participants: Table::empty(Participant::BLANK),
            accounts: Table::empty(Account::BLANK),
            defaults: 0,
        }
    }

    // Its participants, in order. One method for each kind of record: it says which table it shows
    // and how long that may be, and no more.
    pub fn participants(&self) -> &[Participant]
        ensures are_its_participants { result.now ≡ (standing self.now).participants }
        ensures at_most_64 { length result.now ≤ 64 }
    {
        self.participants.as_slice()
    }

    // Its accounts, in order.
    pub fn accounts(&self) -> &[Account]
        ensures are_its_accounts { map balance_of result.now ≡ (standing self.now).accounts }
        ensures are_as_many { length result.now ≡ length (standing self.now).accounts }
        ensures at_most_128 { length result.now ≤ 128 }
    {
        self.accounts.as_slice()
    }

    // How many defaulted in the present period.
    pub fn defaults(&self) -> usize
        ensures are_those_counted { result ≡ (standing self.now).defaults }
    {
        self.defaults
    }

    // Marks the participant at a place as in default. A place beyond the roll changes nothing.
    pub fn mark(&mut self, place: usize)
        ensures marks_just_that_participant { standing self.new ≡ marked_at place (standing self.old) }
    {
        self.participants.change(place, Participant::mark);
    }

    // What the accounts of the participant with this code hold together, both columns counted.
    pub fn money_of(&self, code: u32) -> u64
        ensures is_all_that_its_accounts_hold { result ≡ money_of code (standing self.now).accounts }
    {
        self.accounts()
            .iter()
            .map(|account| held(code, account))
            .sum()
    }
}

// What one account adds to the money of the participant with this code.
fn held(code: u32, account: &Account) -> u64
    ensures { result ≡ held_by code (balance_of account.now) }
{
    if account.owner == code {
        account.funds + account.overnight
    } else {
        0
    }
}
