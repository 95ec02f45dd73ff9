// The program: standard input is a session with repeats, standard output its answers.
#![tactic(auto)]

ghost use Rattle.std.specs.Prelude.{◌≡◌, ◌<◌, ◌≤◌, true, ℕ, length, take, IfSome, IfNone};
ghost use Rattle.std.specs.Io.KnownBytes.{Appends, Consumes, IsAtEnd};
ghost use Rattle.lines.specs.Places.{cut_of};
ghost use Rattle.unrolled.specs.Windows.{judged, answer_of};
ghost use Rattle.repeats.specs.Ends.{Ends};

use pipes::Pipes;
use session::Bench;
use std::io;
use std::io::Eprint;
use unrolled::Begun;

// What is left of the bench after so many lines of the written-out session, and whether all that there was to write was written: the rest
// is promised where it was not, too.
#[derive(Clone, Copy)]
struct Ended {
    bench: Bench,
    played: usize,
    written: bool,
}

// How many bytes the input has up to its end, or as many of them as there is room for; none where it could not be read.
#[tactic(auto, using(crate::proofs::Streaming::came_on))]
fn input<E: Eprint, R: io::Read, W: io::Write>(
    pipes: &mut Pipes<E, R, W>,
    buf: &mut [u8],
) -> Option<usize>
    ensures within { IfSome result (λ n. n ≤ length buf.new) }
    ensures bytes { IfSome result (λ n. Consumes (R.remaining pipes.old.input) (R.remaining pipes.new.input) (take n buf.new)) }
    ensures end { IfSome result (λ n. n < length buf.new → IsAtEnd (R.remaining pipes.new.input)) }
    ensures failed { IfNone result ((n : ℕ) × (n ≤ length buf.new)
        × Consumes (R.remaining pipes.old.input) (R.remaining pipes.new.input) (take n buf.new)) }
    ensures output { pipes.new.output ≡ pipes.old.output }
{
    let mut n = 0;
    // Each read tells how far it came.
    while n < buf.len() {
        let bytes = pipes.read(&mut buf[n..])?;
        if bytes == 0 {
            return Some(n);
        }
        n += bytes;
    }
    Some(n)
}

// The lines of an accepted session, window by window, until all are played or not all could be written.
fn windows<E: Eprint, R: io::Read, W: io::Write>(
    pipes: &mut Pipes<E, R, W>,
    file: &[u8],
    table: &[u32],
    out: &mut [u8],
) -> Ended
    requires { (judged file.now ≡ Ok tt) × (table.now ≡ cut_of file.now) × (425984 ≤ length out.old) }
    ensures ends { Ends file.now result }
    ensures answers { result.written ≡ true → Appends (W.contents pipes.old.output) (W.contents pipes.new.output) (answer_of file.now) }
    ensures others { pipes.new ≡ record pipes.old { output = pipes.new.output } }
{
    let mut places = [0u32; 32768];
    let mut bench = Bench::power_up();
    let mut played: usize = 0;
    loop {
        let gone = unrolled::window(bench, file, table, played, &mut places, out);
        let written = pipes.write(&out[..gone.played.made]);
        bench = gone.played.bench;
        played += gone.lines;
        if !written || gone.lines == 0 {
            return Ended {
                bench,
                played,
                written,
            };
        }
    }
}

// A whole session: its number where it is refused, else its answers.
fn answered<E: Eprint, R: io::Read, W: io::Write>(
    pipes: &mut Pipes<E, R, W>,
    file: &[u8],
    table: &mut [u32],
    out: &mut [u8],
) -> Ended
    requires { (length table.old ≡ 32768) × (length out.old ≡ 425984) }
    ensures ends { Ends file.now result }
    ensures answers { result.written ≡ true → Appends (W.contents pipes.old.output) (W.contents pipes.new.output) (answer_of file.now) }
    ensures others { pipes.new ≡ record pipes.old { output = pipes.new.output } }
{
    match unrolled::begin(file, table, out) {
        Begun::Lines(lines) => windows(pipes, file, &table[..lines], out),
        Begun::Told(_, made) => Ended {
            bench: Bench::power_up(),
            played: 0,
            written: pipes.write(&out[..made]),
        },
        Begun::NoRoom => unreachable!(),
    }
}

// All of the input, and its answers: whether it could be read and all could be written.
fn whole<E: Eprint, R: io::Read, W: io::Write>(pipes: &mut Pipes<E, R, W>) -> bool
    ensures { result ≡ true → IfSome (R.remaining pipes.old.input)
        (λ s. Appends (W.contents pipes.old.output) (W.contents pipes.new.output) (answer_of s)) }
{
    let mut buf = [0u8; 32769];
    let mut table = [0u32; 32768];
    let mut out = [0u8; 425984];
    let Some(n) = input(pipes, &mut buf) else {
        return false;
    };
    answered(pipes, &buf[..n], &mut table, &mut out).written
}

fn main(rt: HostRuntime) {
    whole(&mut Pipes {
        name: "repeats",
        says: &rt,
        input: rt.stdin(),
        output: rt.stdout(),
    });
}
