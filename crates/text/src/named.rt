// What words name.
ghost use Rattle.std.specs.Prelude.{◌≡◌, ℕ, List};
ghost use Rattle.text.specs.Named.{named_among};

// A value that a fixed word names.
pub trait Named: Copy {
    // the bytes of the word
    ghost word_of: { Self → List ℕ };

    // The word.
    fn word(self) -> &'static [u8]
        ensures { result.now ≡ word_of self };
}

// The first of the values that the bytes name.
pub fn named_among<T: Named>(values: &[T], bytes: &[u8]) -> Option<T>
    ensures { result ≡ named_among T.Named.word_of values.now bytes.now }
{
    values.iter().copied().find(|value| bytes == value.word())
}
