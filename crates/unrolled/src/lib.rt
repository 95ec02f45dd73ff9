// A session with repeats on the bench: it is judged as a whole, and its lines are played window by window.
#![tactic(auto)]

ghost use Rattle.unrolled.specs.Windows.{Begins, Goes};

use session::{Bench, Played};

// How a session begins: a buffer is too small for it; it is refused, with so many lines, and there is so much of its number to write; or so
// many lines of it are to be played.
#[derive(Clone, Copy)]
pub enum Begun {
    NoRoom,
    Told(usize, usize),
    Lines(usize),
}

// How many lines a window had, what they left of the bench, and how much there is to write.
#[derive(Clone, Copy)]
pub struct Gone {
    pub lines: usize,
    pub played: Played,
}

// The places of a session's lines come to the table; where it is refused, its number comes to the output. A table of fewer than
// 32,768 places may be too small for its lines, and an output of fewer than 13 bytes for an answer: then nothing is done.
#[tactic(auto, using(crate::proofs::Windows::begins_refused, crate::proofs::Windows::begins_accepted))]
pub fn begin(file: &[u8], table: &mut [u32], out: &mut [u8]) -> Begun
    ensures { Begins file.now table.old out.old result table.new out.new }
{
    if table.len() < 32768 || out.len() < 13 {
        return Begun::NoRoom;
    }
    let lines = lines::cut(file, table);
    match blocks::refusal(file, &table[..lines]) {
        Ok(()) => Begun::Lines(lines),
        Err(refusal) => Begun::Told(lines, replies::put_refusal(out, 0, refusal.number())),
    }
}

// The lines of the written-out session from line `from` on, as many as there are places for, come to the bench, and their answers to
// the output. With fewer than 13 bytes for each nothing is done.
#[tactic(auto, using(crate::proofs::Windows::goes))]
pub fn window(
    bench: Bench,
    file: &[u8],
    table: &[u32],
    from: usize,
    places: &mut [u32],
    out: &mut [u8],
) -> Gone
    ensures { Goes bench file.now table.now from places.old out.old result places.new out.new }
{
    if out.len() / 13 < places.len() {
        return Gone {
            lines: 0,
            played: Played { bench, made: 0 },
        };
    }
    let lines = blocks::window(file, table, from, places);
    let played = bench.play(file, &places[..lines], out);
    Gone { lines, played }
}
