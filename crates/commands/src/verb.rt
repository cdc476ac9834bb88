// The words that commands about books are told by.
ghost use Rattle.std.specs.Prelude.{◌≡◌};
ghost use Rattle.commands.specs.Verbs.{verb_of, basis_of};

// What a command does: its first word.
#[derive(Clone, Copy, Debug, PartialEq, Eq)]
pub(crate) enum Verb {
    Basis,
    Journal,
    Image,
    Roll,
    Funds,
}

// A basis, as it is named.
#[derive(Clone, Copy, Debug, PartialEq, Eq)]
pub enum BasisName {
    Commitment,
}

// The verb that a word is, letter for letter. An `Option`: none is no fault here, since the console that splits then reads the line.
pub(crate) fn verb_named(word: &[u8]) -> Option<Verb>
    ensures { result ≡ verb_of word.now }
{
    match word {
        b"basis" => Some(Verb::Basis),
        b"journal" => Some(Verb::Journal),
        b"image" => Some(Verb::Image),
        b"roll" => Some(Verb::Roll),
        b"funds" => Some(Verb::Funds),
        _ => None,
    }
}

// The basis that a word names. An `Option`, as of the console's verbs.
pub(crate) fn basis_named(word: &[u8]) -> Option<BasisName>
    ensures { result ≡ basis_of word.now }
{
    match word {
        b"commitment" => Some(BasisName::Commitment),
        _ => None,
    }
}
