// The roll, in two tables.
use crate::account::Account;
use crate::participant::Participant;
use image::{MOST_ACCOUNTS, MOST_PARTICIPANTS};
use rows::Table;

// The participants and the accounts, in order. No `Model`: what is copied has to be seen whole, and a refused opening leaves a
// book's roll as it was in its spare places too.
#[derive(Clone, Copy)]
pub struct Roll {
    pub(crate) participants: Table<Participant, MOST_PARTICIPANTS>,
    pub(crate) accounts: Table<Account, MOST_ACCOUNTS>,
    // how many defaulted in the present period
    pub(crate) defaults: usize,
}
