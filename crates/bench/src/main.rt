// The program: standard input is a session, standard output its answers.
#![tactic(auto)]

ghost use Rattle.std.specs.Prelude.{◌+◌, ◌*◌, ◌<◌, ◌≤◌, length, take, IfSome, IfErr, OnOk};
ghost use Rattle.std.specs.Io.KnownBytes.{Appends};
ghost use Rattle.session.specs.Sessions.{session};
ghost use Rattle.turns.specs.Turns.{holding};
ghost use Rattle.bench.specs.Turns.{Turned, Ends};
ghost use Rattle.bench.specs.Streams.{Streams, LongEnough};

use pipes::Pipes;
use session::Bench;
use std::io;
use std::io::Eprint;
use turns::Went;

// What the read gave, what came of it, and whether all that there was to write was written: the rest is promised where it was not, too.
#[derive(Clone, Copy)]
struct Turn {
    read: Option<usize>,
    went: Went,
    written: bool,
}

// Why not all of the session was answered: a read or a write failed, or as many turns were made as 64 bits can count. Their number is
// told so that the loop can be held to it.
#[derive(Clone, Copy)]
enum Cut {
    Failed,
    Counted(u64),
}

// One read, and the answers to what it completes.
fn one_turn<E: Eprint, R: io::Read, W: io::Write>(
    pipes: &mut Pipes<E, R, W>,
    bench: Bench,
    buf: &mut [u8],
    kept: usize,
    out: &mut [u8],
) -> Turn
    requires { (kept ≤ length buf.old) × (3 * length buf.old + 13 ≤ length out.old) }
    ensures turned { Turned (holding bench (take kept buf.old)) kept out.old result buf.new out.new }
    ensures streams { kept < length buf.old → Streams (holding bench (take kept buf.old)) (R.remaining pipes.old.input)
        (R.remaining pipes.new.input) (W.contents pipes.old.output) (W.contents pipes.new.output) result buf.new }
{
    let read = pipes.read(&mut buf[kept..]);
    let went = turns::taken(bench, buf, kept, read, out);
    let written = pipes.write(&out[..went.made]);
    Turn {
        read,
        went,
        written,
    }
}

// Turns until no more may come or not all was written. They are counted because the prover wants every loop to end, and input need not.
fn all_turns<E: Eprint, R: io::Read, W: io::Write>(pipes: &mut Pipes<E, R, W>) -> Result<(), Cut>
    ensures ends { Ends result }
    ensures answers { OnOk result (IfSome (R.remaining pipes.old.input)
        (λ s. Appends (W.contents pipes.old.output) (W.contents pipes.new.output) (session s))) }
    ensures counted { IfErr result (LongEnough (R.remaining pipes.old.input)) }
{
    let mut buf = [0u8; 65536];
    let mut out = [0u8; 196621];
    let mut bench = Bench::power_up();
    let mut kept = 0;
    let mut turns = 0;
    for turn in 0..u64::MAX {
        let t = one_turn(pipes, bench, &mut buf, kept, &mut out);
        if !t.written {
            return Err(Cut::Failed);
        }
        if !t.went.more {
            return if t.read == Some(0) {
                Ok(())
            } else {
                Err(Cut::Failed)
            };
        }
        bench = t.went.bench;
        kept = t.went.kept;
        turns = turn + 1;
    }
    Err(Cut::Counted(turns))
}

fn main(rt: HostRuntime) {
    let _ = all_turns(&mut Pipes {
        name: "bench",
        says: &rt,
        input: rt.stdin(),
        output: rt.stdout(),
    });
}
