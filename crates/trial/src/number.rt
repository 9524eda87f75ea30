// Numbers as a call writes them.
ghost use Rattle.std.specs.Prelude.{◌≡◌};
ghost use Rattle.trial.specs.Numbers.{number_of, value_of, WrittenAs};

use text::digits;

// A number in decimal digits. Only 0 itself begins with a 0.
#[tactic(auto, using(crate::proofs::Decimals::leading))]
pub(crate) fn number(bytes: &[u8]) -> Option<u32>
    ensures value { result ≡ number_of bytes.now }
    ensures decimal { WrittenAs bytes.now result }
{
    match bytes {
        [b'0', _, ..] => None,
        _ => digits::decimal(bytes),
    }
}

// A value of a row.
pub(crate) fn value(bytes: &[u8]) -> Option<u8>
    ensures { result ≡ value_of bytes.now }
{
    u8::try_from(number(bytes)?).ok()
}
