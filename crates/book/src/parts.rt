// What a book keeps beside the roll.

// Is a default period open?
#[derive(Clone, Copy, Debug, PartialEq, Eq)]
pub enum Period {
    Closed,
    Open,
}

// Which terminations the book settles.
#[derive(Clone, Copy, Debug, PartialEq, Eq)]
pub enum Termination {
    Partial,
    Complete,
}

// What an account has lost under each of the eight declarations and has not got back.
#[derive(Clone, Copy, Debug, PartialEq, Eq)]
pub struct Outstanding {
    pub by_declaration: [u64; 8],
}

impl Outstanding {
    // Nothing under any declaration.
    pub const NONE: Outstanding = Outstanding {
        by_declaration: [0; 8],
    };
}
