// Which line a reply is: upper-case hexadecimal, two digits a byte, ended by LF.
#![tactic(auto)]

ghost use Rattle.std.specs.Prelude.{[], ◌∷◌, ◌++◌, ◌≤◌, length, flat_map};
ghost use Rattle.replies.specs.Hex.{hex_of};
ghost use Rattle.replies.specs.Replies.{render, refusal_line, Put};

use calls::Refusal;
use puts::{put_bytes, put_end};

mod puts;

// What a frame gets: the refusal; or the line byte, alone, before a byte that was read, before such a byte and the mask of the flags that
// the read cleared, or before a number of four bytes, a forecast's or that of a run's turns. RefusedAs is for a number that is no Refusal of a
// call: a file's, or any other byte.
#[derive(Clone, Copy)]
pub enum Reply {
    Refused(Refusal),
    RefusedAs(u8),
    Done(u8),
    Data(u8, u8),
    Read(u8, u8, u8),
    Number(u8, u32),
}

// Puts these bytes as a line after the first `at`, and gives the place after it; without 13 free bytes it puts nothing.
#[tactic(auto, using(crate::proofs::Texts::two_each))]
fn put_line(out: &mut [u8], at: usize, bytes: &[u8]) -> usize
    requires { length bytes.now ≤ 6 }
    ensures { Put out.old out.new at result (flat_map hex_of bytes.now ++ 10 ∷ []) }
{
    let size = out.len();
    if size < 13 || size - 13 < at {
        return at;
    }
    let end = put_bytes(out, at, bytes);
    put_end(out, end)
}

// Puts a reply after the first `at` bytes, where 13 bytes are free there, and gives the place after it.
#[tactic(auto, unfolding(crate::specs::Replies::render, crate::specs::Replies::told, crate::specs::Hex::hex_of))]
pub fn put(out: &mut [u8], at: usize, reply: Reply) -> usize
    ensures { Put out.old out.new at result (render reply) }
{
    match reply {
        Reply::Refused(refusal) => put_line(out, at, &[refusal.number()]),
        Reply::RefusedAs(n) => put_line(out, at, &[n]),
        Reply::Done(line) => put_line(out, at, &[0, line]),
        Reply::Data(line, b) => put_line(out, at, &[0, line, b]),
        Reply::Read(line, b, cleared) => put_line(out, at, &[0, line, b, cleared]),
        Reply::Number(line, n) => {
            let [a, b, c, d] = n.to_be_bytes();
            put_line(out, at, &[0, line, a, b, c, d])
        }
    }
}

// Puts a number alone, as `put` puts a refusal's: what plays lines has refusals of its own.
#[tactic(auto, unfolding(crate::specs::Replies::refusal_line, crate::specs::Hex::hex_of))]
pub fn put_refusal(out: &mut [u8], at: usize, number: u8) -> usize
    ensures { Put out.old out.new at result (refusal_line number) }
{
    put_line(out, at, &[number])
}
