// Hexadecimal fields, read and written.
ghost use Rattle.std.specs.Prelude.{◌≡◌, ℕ, ◌*◌, ◌^◌, ◌<◌, ◌≤◌, length, MatchOption, ◌≢◌};
ghost use Rattle.lines.specs.Hex.{digit_value, hex_digit, hex};

// The number of one lower-case digit.
fn digit(byte: u8) -> Option<u8>
    ensures told { MatchOption result ((d : ℕ) → d < 16 → byte ≢ hex_digit d) (λ d. (d < 16) × (byte ≡ hex_digit d)) }
    ensures exact { result ≡ digit_value byte }
{
    match byte {
        b'0'..=b'9' => Some(byte - b'0'),
        b'a'..=b'f' => Some(byte - b'a' + 10),
        _ => None,
    }
}

// The number that a field of at most sixteen digits spells.
#[tactic(auto, using(crate::proofs::HexFacts::room_for_digit))]
pub(crate) fn number<const DIGITS: usize>(text: &[u8; DIGITS]) -> Option<u64>
    requires { DIGITS ≤ 16 }
    ensures { MatchOption result ((v : ℕ) → v < 2 ^ (4 * DIGITS) → text.now ≢ hex DIGITS v) (λ v. (v < 2 ^ (4 * DIGITS)) × (text.now ≡ hex DIGITS v)) }
{
    let mut value = 0;
    for byte in text {
        value = value * 16 + u64::from(digit(*byte)?);
    }
    Some(value)
}
