// The pieces of a text between the occurrences of a byte.
ghost use Rattle.std.specs.Prelude.{◌≡◌, [], ◌∷◌, ◌==◌, length, position, MatchOption};
ghost use Rattle.text.specs.Pieces.{pieces};
ghost use Rattle.text.specs.Coming.{coming};
ghost use Rattle.std.specs.Iterator.{at_most};

// The pieces that are still to come, in order; none after the last. `slice::split` gives them too, but every struct
// that holds one has the type of its closure as a parameter then.
#[derive(Clone, Copy)]
pub struct Pieces<'a> {
    at: u8,
    rest: Option<&'a [u8]>,
}

impl<'a> Pieces<'a> {
    // The pieces of the bytes, of which the first ends before the first byte `at`.
    pub fn new(bytes: &'a [u8], at: u8) -> Pieces<'a>
        ensures { coming result ≡ pieces at bytes.now }
    {
        Pieces {
            at,
            rest: Some(bytes),
        }
    }

    // No pieces.
    pub fn none() -> Pieces<'a>
        ensures { coming result ≡ [] }
    {
        Pieces { at: 0, rest: None }
    }
}

// The place of the first such byte.
fn place(bytes: &[u8], at: u8) -> Option<usize>
    ensures { result ≡ position (λ b. b == at) bytes.now }
{
    bytes.iter().position(|b| *b == at)
}

impl<'a> Iterator for Pieces<'a> {
    type Item = &'a [u8];

    ghost next_gives = { λ s r t. MatchOption r ((coming s ≡ []) × (t ≡ s)) (λ p. coming s ≡ p.now ∷ coming t) };

    ghost remaining = { λ s. at_most (length (coming s)) };

    #[tactic(auto, using(crate::proofs::Cuts::pieces_cut, crate::proofs::Cuts::pieces_whole))]
    fn next(&mut self) -> Option<&'a [u8]> {
        let bytes = self.rest?;
        match place(bytes, self.at) {
            Some(i) => {
                self.rest = Some(&bytes[i + 1..]);
                Some(&bytes[..i])
            }
            None => {
                self.rest = None;
                Some(bytes)
            }
        }
    }
}
