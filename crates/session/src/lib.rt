// A session on the bench of four chips: lines in, replies out, whole files in pieces of any size.
#![tactic(auto)]

ghost use Rattle.std.specs.Prelude.{◌≡◌, [], ◌<◌, ◌≤◌, length, IfSome};
ghost use Rattle.lines.specs.Lines.{ended};
ghost use Rattle.lines.specs.Places.{lines_at};
ghost use Rattle.frames.specs.Frames.{frame_of};
ghost use Rattle.session.specs.Steps.{power_up, step_of};
ghost use Rattle.session.specs.Core.{joined, core_of, stepped};
ghost use Rattle.session.specs.Pieces.{lines_in, Ends, Feeds, Finishes, Plays};

use calls::Refusal;
use crtc6545::Crtc;
use frames::Frame;
use replies::Reply;
use riot6532::{Io, Riot};
use tpi6525::Tpi;
use via6522::Via;

#[derive(Clone, Copy)]
pub struct Bench {
    pub via: Via,
    pub tpi: Tpi,
    pub riot: Riot,
    pub crtc: Crtc,
}

// The bench without the 6532's RAM, which is lent beside it.
#[derive(Clone, Copy)]
struct Core {
    via: Via,
    tpi: Tpi,
    io: Io,
    crtc: Crtc,
}

// What a line leaves of the bench, and its reply.
#[derive(Clone, Copy)]
pub struct Stepped {
    pub bench: Bench,
    pub reply: Reply,
}

// What a piece of a file leaves of the bench, how many bytes of it were used, and how many were written.
#[derive(Clone, Copy)]
pub struct Fed {
    pub bench: Bench,
    pub used: usize,
    pub made: usize,
}

// What the lines at some places leave of the bench, and how many bytes were written for them.
#[derive(Clone, Copy)]
pub struct Played {
    pub bench: Bench,
    pub made: usize,
}

impl From<Bench> for Core {
    ghost from_gives = { λ bench core. core ≡ core_of bench };

    fn from(bench: Bench) -> Core {
        Core {
            via: bench.via,
            tpi: bench.tpi,
            io: bench.riot.io,
            crtc: bench.crtc,
        }
    }
}

impl Core {
    // What a frame does: only the chip that it names is touched.
    #[tactic(auto, unfolding(crate::specs::Steps::step_of))]
    fn step(&mut self, ram: &mut [u8; 128], frame: Option<Frame>) -> Reply
        ensures { stepped ram.new self.new result ≡ step_of (joined ram.old self.old) frame }
    {
        match frame {
            None => Reply::Refused(Refusal::NoFrame),
            Some(Frame::To22(call)) => {
                let after = calling::on22(self.via, call);
                self.via = after.chip;
                after.reply
            }
            Some(Frame::To25(call)) => {
                let after = calling::on25(self.tpi, call);
                self.tpi = after.chip;
                after.reply
            }
            Some(Frame::To32(call)) => {
                let after = calling::on32(self.io, ram, call);
                self.io = after.chip;
                after.reply
            }
            Some(Frame::To45(call)) => {
                let after = calling::on45(self.crtc, call);
                self.crtc = after.chip;
                after.reply
            }
        }
    }

    fn answered(&mut self, ram: &mut [u8; 128], line: &[u8]) -> Reply
        ensures { stepped ram.new self.new result ≡ step_of (joined ram.old self.old) (frame_of line.now) }
    {
        self.step(ram, frames::decode(line))
    }

    // The bench that the core and the RAM are: of two values, so no From.
    fn bench(self, ram: [u8; 128]) -> Bench
        ensures { result ≡ joined ram self }
    {
        Bench {
            via: self.via,
            tpi: self.tpi,
            riot: Riot { ram, io: self.io },
            crtc: self.crtc,
        }
    }
}

impl Bench {
    #[tactic(auto, unfolding(crate::specs::Steps::power_up))]
    pub fn power_up() -> Bench
        ensures { result ≡ power_up }
    {
        Bench {
            via: Via::power_up(),
            tpi: Tpi::power_up(),
            riot: Riot::power_up(),
            crtc: Crtc::power_up(),
        }
    }

    // One line without its LF, of any length and content.
    pub fn line(self, line: &[u8]) -> Stepped
        ensures { result ≡ step_of self (frame_of line.now) }
    {
        let mut ram = self.riot.ram;
        let mut core = Core::from(self);
        let reply = core.answered(&mut ram, line);
        Stepped {
            bench: core.bench(ram),
            reply,
        }
    }

    // As many lines as there is room for the answers of, 13 bytes each: those that an LF ends, or all of the input as one. Both come
    // to a chip through this one loop, so that all the work on a line becomes part of it: a closure that finds the ends would make two.
    #[tactic(auto, using(crate::proofs::Feeding::going_start))]
    fn taken(self, input: &[u8], whole: bool, out: &mut [u8]) -> Fed
        ensures { Feeds self (lines_in whole input.now) out.old out.new result }
    {
        let mut ram = self.riot.ram;
        let mut core = Core::from(self);
        let mut used: usize = 0;
        let mut made: usize = 0;
        while let Some(end) = line_end(input, used, whole) {
            if out.len() - made < 13 {
                break;
            }
            let reply = core.answered(&mut ram, &input[used..end]);
            made = replies::put(out, made, reply);
            used = end + 1;
        }
        Fed {
            bench: core.bench(ram),
            used,
            made,
        }
    }

    // The whole lines of a piece, as many as there is room for.
    #[tactic(auto, unfolding(crate::specs::Pieces::lines_in))]
    pub fn feed(self, input: &[u8], out: &mut [u8]) -> Fed
        ensures { Feeds self (ended [] input.now) out.old out.new result }
    {
        self.taken(input, false, out)
    }

    // The answer to a last line that no LF ends; none for an empty one, and none without 13 bytes for it.
    #[tactic(auto, using(crate::proofs::Feeding::finishes), unfolding(crate::specs::Pieces::lines_in))]
    pub fn finish(self, line: &[u8], out: &mut [u8]) -> usize
        ensures { Finishes self line.now out.old out.new result }
    {
        self.taken(line, true, out).made
    }

    // The lines at these places of a text, where there are 13 bytes for each answer; else none.
    #[tactic(auto, using(crate::proofs::Playing::playing_none, crate::proofs::Playing::playing_start, crate::proofs::Playing::playing_line))]
    pub fn play(self, text: &[u8], places: &[u32], out: &mut [u8]) -> Played
        ensures { Plays self (lines_at text.now places.now) out.old out.new result }
    {
        if out.len() / 13 < places.len() {
            return Played {
                bench: self,
                made: 0,
            };
        }
        let mut ram = self.riot.ram;
        let mut core = Core::from(self);
        let mut made: usize = 0;
        for &p in places {
            let reply = core.answered(&mut ram, lines::line_at(text, p));
            made = replies::put(out, made, reply);
        }
        Played {
            bench: core.bench(ram),
            made,
        }
    }
}

// Where the line ends that begins at `at`, if one does.
#[tactic(auto, using(lines::proofs::Demands::end_within, crate::proofs::Feeding::ends_past, crate::proofs::Feeding::ends_whole, crate::proofs::Feeding::ends_missing, crate::proofs::Feeding::ends_found))]
fn line_end(input: &[u8], at: usize, whole: bool) -> Option<usize>
    ensures within { IfSome result (λ end. (at ≤ end) × (end ≤ length input.now) × (at < length input.now)) }
    ensures line { Ends whole input.now at result }
{
    if input.len() <= at {
        return None;
    }
    if whole {
        return Some(input.len());
    }
    let end = lines::end_from(input, at);
    if end == input.len() {
        return None;
    }
    Some(end)
}
