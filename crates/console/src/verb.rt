// The words that commands are told by.
ghost use Rattle.std.specs.Prelude.{◌≡◌};
ghost use Rattle.console.specs.Verbs.{verb_of, switch_of};

// What a command does: its first word.
#[derive(Clone, Copy, Debug, PartialEq, Eq)]
pub(crate) enum Verb {
    Explain,
    Split,
}

// The verb that a word is, letter for letter. An `Option`, as wherever a word is read as a value: a word that is none of these
// says no more than that, so the error of a `TryFrom` would have one case, and each place names its fault once, by `ok_or`.
pub(crate) fn verb_named(word: &[u8]) -> Option<Verb>
    ensures { result ≡ verb_of word.now }
{
    match word {
        b"explain" => Some(Verb::Explain),
        b"split" => Some(Verb::Split),
        _ => None,
    }
}

// `on` or `off`; an `Option`, as of a verb.
pub(crate) fn switch(word: &[u8]) -> Option<bool>
    ensures { result ≡ switch_of word.now }
{
    match word {
        b"on" => Some(true),
        b"off" => Some(false),
        _ => None,
    }
}
