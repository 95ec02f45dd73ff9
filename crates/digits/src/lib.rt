// Upper-case hexadecimal, read. A character that is no digit makes nothing of what it is part of.
#![tactic(auto)]

ghost use Rattle.std.specs.Prelude.{◌≡◌, ◌<◌, IfSome};
ghost use Rattle.digits.specs.Hex.{value_of, pair_of, word_of};

// How far a character is above 0 and above A, modulo 256: one compare tells whether it is in that range.
#[inline(always)]
fn value(c: u8) -> Option<u8>
    ensures digit { result ≡ value_of c }
    ensures below_16 { IfSome result (λ v. v < 16) }
{
    match (c.wrapping_sub(b'0'), c.wrapping_sub(b'A')) {
        (digit @ 0..=9, _) => Some(digit),
        (_, letter @ 0..=5) => Some(letter + 10),
        _ => None,
    }
}

// The byte of two digits.
#[tactic(auto, unfolding(crate::specs::Hex::pair_of))]
#[inline(always)]
pub fn byte(h: u8, l: u8) -> Option<u8>
    ensures { result ≡ pair_of h l }
{
    let high = value(h)?;
    let low = value(l)?;
    Some(high * 16 + low)
}

// Two bytes as one number.
#[tactic(auto, unfolding(crate::specs::Hex::word_of))]
pub fn word(a: u8, b: u8, c: u8, d: u8) -> Option<u16>
    ensures { result ≡ word_of a b c d }
{
    let high = byte(a, b)?;
    let low = byte(c, d)?;
    Some(u16::from(high) * 256 + u16::from(low))
}
