// The records of an image in memory.
#![tactic(auto, unfolding(crate::specs::Layout::records_of))]

ghost use Rattle.std.specs.Prelude.{◌≡◌, ◌≤◌, length};
ghost use Rattle.image.specs.Layout.{records_of};

use crate::record::{AccountRecord, ParticipantRecord};
use crate::tables::Image;

// One method for each kind of record: it says which table it shows and how long that may be, and
// no more.
impl Image {
    // Its participants, in order.
    pub fn participants(&self) -> &[ParticipantRecord]
        ensures are_its_participants { result.now ≡ (records_of self.now).participants }
        ensures at_most_64 { length result.now ≤ 64 }
    {
        self.participants.as_slice()
    }

    // Its accounts, in order.
    pub fn accounts(&self) -> &[AccountRecord]
        ensures are_its_accounts { result.now ≡ (records_of self.now).accounts }
        ensures at_most_128 { length result.now ≤ 128 }
    {
        self.accounts.as_slice()
    }
}
