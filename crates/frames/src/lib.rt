// Which call a line of a session is: the byte of a chip, an operation's number and its operands, two digits a byte.
#![tactic(auto)]

ghost use Rattle.std.specs.Prelude.{◌≡◌, [], ◌∷◌};
ghost use Rattle.frames.specs.Frames.{called, asked, frame_of};

use calls::{Call22, Call25, Call32, Call45};
use digits::{byte, word};

// What a line asks for: a call of one chip.
#[derive(Clone, Copy)]
pub enum Frame {
    To22(Call22),
    To25(Call25),
    To32(Call32),
    To45(Call45),
}

// Calls by the number of their operands, each with a table of its own. Chip and operation are told apart as one word, the line's first four digits.
#[tactic(auto, unfolding(crate::specs::Frames::called))]
fn bare(word: u16) -> Option<Frame>
    ensures { result ≡ called word [] }
{
    match word {
        0x2201 => Some(Frame::To22(Call22::Reset)),
        0x2206 => Some(Frame::To22(Call22::Forecast)),
        0x2501 => Some(Frame::To25(Call25::Reset)),
        0x3201 => Some(Frame::To32(Call32::Reset)),
        0x3206 => Some(Frame::To32(Call32::Forecast)),
        0x4501 => Some(Frame::To45(Call45::Reset)),
        _ => None,
    }
}

#[tactic(auto, unfolding(crate::specs::Frames::called))]
fn with_one(word: u16, x: u8) -> Option<Frame>
    ensures { result ≡ called word (x ∷ []) }
{
    match word {
        0x2203 => Some(Frame::To22(Call22::Read(x))),
        0x2503 => Some(Frame::To25(Call25::Read(x))),
        0x3203 => Some(Frame::To32(Call32::Read(x))),
        0x4503 => Some(Frame::To45(Call45::Read(x))),
        0x4504 => Some(Frame::To45(Call45::Pins(x))),
        _ => None,
    }
}

#[tactic(auto, unfolding(crate::specs::Frames::called))]
fn with_two(word: u16, x: u8, y: u8) -> Option<Frame>
    ensures { result ≡ called word (x ∷ y ∷ []) }
{
    match word {
        0x2202 => Some(Frame::To22(Call22::Write(x, y))),
        0x2502 => Some(Frame::To25(Call25::Write(x, y))),
        0x3202 => Some(Frame::To32(Call32::Write(x, y))),
        0x3204 => Some(Frame::To32(Call32::Pins(x, y))),
        0x4502 => Some(Frame::To45(Call45::Write(x, y))),
        _ => None,
    }
}

#[tactic(auto, unfolding(crate::specs::Frames::called))]
fn with_three(word: u16, x: u8, y: u8, z: u8) -> Option<Frame>
    ensures { result ≡ called word (x ∷ y ∷ z ∷ []) }
{
    match word {
        0x2204 => Some(Frame::To22(Call22::Pins(x, y, z))),
        0x2504 => Some(Frame::To25(Call25::Pins(x, y, z))),
        _ => None,
    }
}

// Four operands are a count.
#[tactic(auto, unfolding(crate::specs::Frames::called))]
#[inline(always)]
fn with_four(word: u16, a: u8, b: u8, c: u8, d: u8) -> Option<Frame>
    ensures { result ≡ called word (a ∷ b ∷ c ∷ d ∷ []) }
{
    let n = u32::from_be_bytes([a, b, c, d]);
    match word {
        0x2205 => Some(Frame::To22(Call22::Run(n))),
        0x2505 => Some(Frame::To25(Call25::Run(n))),
        0x3205 => Some(Frame::To32(Call32::Run(n))),
        0x4505 => Some(Frame::To45(Call45::Run(n, false))),
        0x4507 => Some(Frame::To45(Call45::Run(n, true))),
        _ => None,
    }
}

// What a word and the digits of its operands ask for.
#[tactic(auto, using(crate::proofs::Lines::by_operands))]
fn asked(word: u16, operands: &[u8]) -> Option<Frame>
    ensures { result ≡ asked word operands.now }
{
    match *operands {
        [] => bare(word),
        [a, b] => with_one(word, byte(a, b)?),
        [a, b, c, d] => with_two(word, byte(a, b)?, byte(c, d)?),
        [a, b, c, d, e, f] => with_three(word, byte(a, b)?, byte(c, d)?, byte(e, f)?),
        [a, b, c, d, e, f, g, h] => {
            with_four(word, byte(a, b)?, byte(c, d)?, byte(e, f)?, byte(g, h)?)
        }
        _ => None,
    }
}

// The frame that a line is, of whatever length and characters; its LF is no part of it.
#[tactic(auto, using(crate::proofs::Lines::short_unknown, crate::proofs::Lines::word_first))]
pub fn decode(line: &[u8]) -> Option<Frame>
    ensures { result ≡ frame_of line.now }
{
    let [a, b, c, d, operands @ ..] = line else {
        return None;
    };
    // Taken out and put back, so that all that is no frame leaves by one way, which the compiler makes shorter.
    Some(asked(word(*a, *b, *c, *d)?, operands)?)
}
