// What a program does with one read of a session, without input or output.
#![tactic(auto)]

ghost use Rattle.std.specs.Prelude.{◌≡◌, None, Some, IfSome, IfNone};
ghost use Rattle.turns.specs.Turns.{Fits, Takes};

use session::Bench;

// What a turn leaves: the bench, how much of an open line is kept, how much there is to write, and whether more may come. All of it is
// promised where no more comes too.
#[derive(Clone, Copy)]
pub struct Went {
    pub bench: Bench,
    pub kept: usize,
    pub made: usize,
    pub more: bool,
}

// How many bytes are new. None after a read that failed, or where a buffer is too small for what it is said to hold, or for the answers.
fn fresh(buf: &[u8], kept: usize, read: Option<usize>, out: &[u8]) -> Option<usize>
    ensures some { IfSome result (λ more. (read ≡ Some more) × Fits kept read buf.now out.now) }
    ensures none { IfNone result (Fits kept read buf.now out.now → read ≡ None) }
{
    let more = read?;
    let free = buf.len().checked_sub(kept)?;
    let room = out.len().checked_sub(13)? / 3;
    (more <= free && buf.len() <= room).then_some(more)
}

// What is kept, and what was read behind it, come to the bench; its answers come to the output. At the end of the input nothing is
// read, and what is kept is the last line. Where a buffer is too small, all stays as after a read that failed.
#[tactic(auto, using(crate::proofs::Turning::stays, crate::proofs::Turning::ends, crate::proofs::Turning::pieces))]
pub fn taken(bench: Bench, buf: &mut [u8], kept: usize, read: Option<usize>, out: &mut [u8]) -> Went
    ensures { Takes bench kept read buf.old out.old result buf.new out.new }
{
    let Some(more) = fresh(buf, kept, read, out) else {
        return Went {
            bench,
            kept,
            made: 0,
            more: false,
        };
    };
    if more == 0 {
        let made = bench.finish(&buf[..kept], out);
        return Went {
            bench,
            kept,
            made,
            more: false,
        };
    }
    let n = kept + more;
    let fed = bench.feed(&buf[..n], out);
    let left = lines::keep(buf, fed.used, n, 33);
    Went {
        bench: fed.bench,
        kept: left,
        made: fed.made,
        more: true,
    }
}
