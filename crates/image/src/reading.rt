// Reading an image.
ghost use Rattle.std.specs.Prelude.{◌≡◌, ◌+◌, ◌*◌, ◌≤◌, [], map, length, IfOk};
ghost use Rattle.std.specs.List.{range_with_len};
ghost use Rattle.std.specs.Result.{result_map_both};
ghost use Rattle.image.specs.Faults.{head_fault, unless, image_of};
ghost use Rattle.image.specs.Head.{counts_of};
ghost use Rattle.image.specs.Layout.{length_for, records_of, bytes_of, FewRecords};
ghost use Rattle.rows.specs.Tables.{records};

use crate::fault::ImageFault;
use crate::record::{AccountRecord, ParticipantRecord};
use crate::stored::{Stored, Wide};
use crate::tables::{Image, MOST_ACCOUNTS, MOST_PARTICIPANTS};
use rows::Table;

// The version that is read.
const VERSION: u8 = 1;
// The bytes of a head.
pub const HEAD: usize = 7;

// How many records an image has.
#[derive(Clone, Copy, Debug, PartialEq, Eq)]
struct Counts {
    participants: usize,
    accounts: usize,
}

// Tests the head, in the order of the faults, and answers how many records follow.
#[tactic(auto, using(std::proofs::lemmas::Bool::Decides::nat_tests), unfolding(crate::specs::Faults::head_fault))]
fn counted(bytes: &[u8]) -> Result<Counts, ImageFault>
    ensures as_defined { result ≡ unless (head_fault bytes.now) (counts_of bytes.now) }
    ensures few_participants { IfOk result (λ counts. counts.participants ≤ 64) }
    ensures few_accounts { IfOk result (λ counts. counts.accounts ≤ 128) }
    ensures length_is_stated { IfOk result (λ counts. length bytes.now ≡ length_for counts.participants counts.accounts) }
{
    if bytes.len() < HEAD {
        return Err(ImageFault::Short);
    }
    if u8::read_at(bytes, 0) != VERSION {
        return Err(ImageFault::Version);
    }
    let participants = usize::from(u8::read_at(bytes, 5));
    if !(1..=MOST_PARTICIPANTS).contains(&participants) {
        return Err(ImageFault::Participants);
    }
    let accounts = usize::from(u8::read_at(bytes, 6));
    if accounts > MOST_ACCOUNTS {
        return Err(ImageFault::Accounts);
    }
    let stated = u32::read_at(bytes, 1) as usize;
    if stated != bytes.len()
        || stated
            != HEAD + ParticipantRecord::WIDTH * participants + AccountRecord::WIDTH * accounts
    {
        return Err(ImageFault::Length);
    }
    Ok(Counts {
        participants,
        accounts,
    })
}

// Reads so many records, one behind the other, the first of which begins at a place, into an empty table. The table is lent,
// since one that is handed out is copied on its way.
fn read_in<R: Stored + Copy, const N: usize>(
    bytes: &[u8],
    first: usize,
    count: usize,
    table: &mut Table<R, N>,
)
    requires in_image { first + R.WIDTH * count ≤ length bytes.now }
    requires room { count ≤ N }
    requires empty { records table.old ≡ [] }
    ensures { records table.new ≡ map (λ i. R.stored_at bytes.now (first + R.WIDTH * i)) (range_with_len 0 count) }
{
    // The closure asks again that the bytes are there: it is told nothing of what the function around it asks.
    table.push_each(
        count,
        |i|
            requires { first + R.WIDTH * i + R.WIDTH ≤ length bytes.now }
        { R::read_at(bytes, first + R::WIDTH * i) },
    );
}

// The records of an image, or what is wrong with its head.
pub fn read(bytes: &[u8]) -> Result<Image, ImageFault>
    ensures reads_as_defined { result_map_both records_of (λ fault. fault) result ≡ image_of bytes.now }
    ensures records_have_the_bytes_read { IfOk result (λ image. bytes_of (records_of image) ≡ bytes.now) }
    ensures counts_are_within_limits { IfOk result (λ image. FewRecords (records_of image)) }
{
    let counts = counted(bytes)?;
    let mut image = Image {
        participants: Table::empty(ParticipantRecord::BLANK),
        accounts: Table::empty(AccountRecord::BLANK),
    };
    read_in(bytes, HEAD, counts.participants, &mut image.participants);
    let first = HEAD + ParticipantRecord::WIDTH * counts.participants;
    read_in(bytes, first, counts.accounts, &mut image.accounts);
    Ok(image)
}
