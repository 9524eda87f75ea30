// The words that calls begin with.
ghost use Rattle.std.specs.Prelude.{◌≡◌};
ghost use Rattle.trial.specs.Calls.{word_of, verb_of};

use text::named::{Named, named_among};

#[derive(Clone, Copy, PartialEq, Eq, Debug)]
pub(crate) enum Verb {
    Take,
    Printed,
    Spoiled,
    Row,
    Label,
    Counts,
    Close,
}

impl Named for Verb {
    ghost word_of = { word_of };

    fn word(self) -> &'static [u8] {
        match self {
            Verb::Take => b"take",
            Verb::Printed => b"printed",
            Verb::Spoiled => b"spoiled",
            Verb::Row => b"row",
            Verb::Label => b"label",
            Verb::Counts => b"counts",
            Verb::Close => b"close",
        }
    }
}

impl Verb {
    const ALL: [Verb; 7] = [
        Verb::Take,
        Verb::Printed,
        Verb::Spoiled,
        Verb::Row,
        Verb::Label,
        Verb::Counts,
        Verb::Close,
    ];

    // The call that the word names.
    pub(crate) fn of(word: &[u8]) -> Option<Verb>
        ensures { result ≡ verb_of word.now }
    {
        named_among(&Verb::ALL, word)
    }
}
