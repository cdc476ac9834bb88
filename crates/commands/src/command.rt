// What a line may tell.
use crate::verb::BasisName;

// What the book is told to do.
#[derive(Drop)]
pub enum Command {
    // What the console that splits does: explanations are printed or not, or a sum is split.
    Split(console::Command),
    // From the next opening on books go by this basis.
    Basis { name: BasisName },
    // From now on calls may use so many places of the journal.
    Journal { places: usize },
    // A book is opened from the bytes.
    Image { bytes: Vec<u8> },
    // A book is opened from the bytes of a file.
    Roll { path: Vec<u8> },
    // The funds of every account are listed.
    Funds,
}
