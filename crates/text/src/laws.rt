// What holds of the definitions that the contracts cite.
ghost use Rattle.std.specs.Prelude.{ℕ, List};
ghost use Rattle.text.specs.Digits.{DecimalsLaws};
ghost use Rattle.text.specs.Pieces.{pieces, PiecesLaws, CutsAgain};

// The pieces of a text lack the byte that parts them, and with it between them are the text; and no other pieces are.
pub fn pieces_stand()
    ensures cut { (at : ℕ) (bs : List ℕ) → PiecesLaws at bs (pieces at bs) }
    ensures joined { (at : ℕ) (ps : List (List ℕ)) → CutsAgain at ps }
{}

// A number's decimal digits have it as their value.
#[tactic(auto, using(crate::proofs::Numerals::decimals_laws))]
pub fn decimals_stand()
    ensures { DecimalsLaws }
{}
