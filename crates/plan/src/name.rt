// The kinds by name.
ghost use Rattle.std.specs.Prelude.{◌≡◌};
ghost use Rattle.walk.specs.Making.{Makes};
ghost use Rattle.kinds.specs.Kinds.{kind_meaning};
ghost use Rattle.plan.specs.Format.{word_of, kind_named, takes_t, takes_list, kind_made};

use kinds::kind::Kind;
use std::alloc::Global;
use text::named::{Named, named_among};
use walk::making::MakingFault;

#[derive(Clone, Copy, PartialEq, Eq, Debug)]
pub enum KindName {
    Digits,
    Gray,
    Choose,
    Door,
    Stock,
    Words,
    Changes,
}

impl Named for KindName {
    ghost word_of = { word_of };

    fn word(self) -> &'static [u8] {
        match self {
            KindName::Digits => b"digits",
            KindName::Gray => b"gray",
            KindName::Choose => b"choose",
            KindName::Door => b"door",
            KindName::Stock => b"stock",
            KindName::Words => b"words",
            KindName::Changes => b"changes",
        }
    }
}

impl KindName {
    const ALL: [KindName; 7] = [
        KindName::Digits,
        KindName::Gray,
        KindName::Choose,
        KindName::Door,
        KindName::Stock,
        KindName::Words,
        KindName::Changes,
    ];

    // The kind that the word names.
    pub fn of(word: &[u8]) -> Option<KindName>
        ensures { result ≡ kind_named word.now }
    {
        named_among(&KindName::ALL, word)
    }

    // Whether t is a number.
    pub fn takes_t(self) -> bool
        ensures { result ≡ takes_t self }
    {
        matches!(self, KindName::Choose | KindName::Door | KindName::Stock)
    }

    // Whether the list has numbers, where n is not 0.
    pub fn takes_list(self) -> bool
        ensures { result ≡ takes_list self }
    {
        !matches!(self, KindName::Choose | KindName::Door | KindName::Changes)
    }

    // Makes the kind.
    pub fn make(self, heap: Global, n: u16, t: u16, list: &[u16]) -> Result<Kind, MakingFault>
        ensures { Makes kind_meaning result (kind_made self n t list.now) }
    {
        match self {
            KindName::Digits => Kind::digits(heap, n, list),
            KindName::Gray => Kind::gray(heap, n, list),
            KindName::Choose => Kind::choose(heap, n, t),
            KindName::Door => Kind::door(heap, n, t),
            KindName::Stock => Kind::stock(heap, n, t, list),
            KindName::Words => Kind::words(heap, n, list),
            KindName::Changes => Kind::changes(n),
        }
    }
}
