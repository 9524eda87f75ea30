// Numbers as a plan text writes them.
ghost use Rattle.std.specs.Prelude.{◌≡◌};
ghost use Rattle.plan.specs.Numbers.{digit_value, number_value};

fn digit(b: u8) -> Option<u16>
    ensures { result ≡ digit_value b }
{
    match b {
        b'0'..=b'9' => Some(u16::from(b - b'0')),
        _ => None,
    }
}

// A number of one, two or three digits. Only 0 itself begins with a 0. Its bytes are matched as a slice of so many: a rule of the
// project.
pub fn number(bytes: &[u8]) -> Option<u16>
    ensures { result ≡ number_value bytes.now }
{
    match bytes {
        [a] => digit(*a),
        [b'0', ..] => None,
        [a, b] => Some(10 * digit(*a)? + digit(*b)?),
        [a, b, c] => Some(100 * digit(*a)? + 10 * digit(*b)? + digit(*c)?),
        _ => None,
    }
}
