// The roll's image: from its bytes to its records. Nothing here knows what a field may hold.
#![tactic(auto)]

mod access;
mod fault;
mod reading;
mod record;
mod stored;
mod tables;

pub use fault::ImageFault;
pub use reading::{HEAD, read};
pub use record::{AccountRecord, ParticipantRecord};
pub use stored::Wide;
pub use tables::{Image, MOST_ACCOUNTS, MOST_PARTICIPANTS};
