// An image in memory: its records in two tables.
use crate::record::{AccountRecord, ParticipantRecord};
use rows::Table;

// The most participants and the most accounts of an image.
pub const MOST_PARTICIPANTS: usize = 64;

pub const MOST_ACCOUNTS: usize = 128;

// The records of an image, in order. No `Model`: what is copied has to be seen whole, and contracts see the records only.
#[derive(Clone, Copy)]
pub struct Image {
    pub(crate) participants: Table<ParticipantRecord, MOST_PARTICIPANTS>,
    pub(crate) accounts: Table<AccountRecord, MOST_ACCOUNTS>,
}
