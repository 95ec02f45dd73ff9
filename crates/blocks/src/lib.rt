// Sessions with repeats: what they come to, written out window by window, and which are refused.
#![tactic(auto)]

ghost use Rattle.std.specs.Prelude.{◌≡◌, List, ℕ, ◌≤◌, ◌<◌, ◌+◌, ◌-◌, ◌*◌, ltb, length, take, drop};
ghost use Rattle.blocks.specs.Windows.{window as window_of, note_of, notes, Last};
ghost use Rattle.lines.specs.Written.{Written};
ghost use Rattle.lines.specs.Places.{line_at};
ghost use Rattle.blocks.specs.Blocks.{times as times_of, others, blocks_of, written_out};
ghost use Rattle.blocks.specs.Judged.{refusal_of};
ghost use Rattle.blocks.specs.Walks.{ThroughBlock, ThroughLine};

use marks::Refusal;

// Where a walk has come to, and its window.
#[derive(Clone, Copy)]
struct Walked {
    at: usize,
    skip: usize,
    used: usize,
}

// Where a walk has come to by repetitions, and how many.
#[derive(Clone, Copy)]
struct Repeated {
    walk: Walked,
    done: u16,
}

// The last `size` that are noted come once more, as far as there is room. `window_of` speaks of the whole buffer, so places go beside it.
#[tactic(auto, using(crate::proofs::Copies::copied_is))]
fn copied(out: &mut [u32], used: usize, size: usize) -> usize
    requires { (size ≤ used) × (used ≤ length out.old) }
    ensures { window_of 0 result out.new ≡ notes (window_of 0 used out.old) (take size (drop (used - size) out.old)) }
{
    let from = used - size;
    let fits = size.min(out.len() - used);
    out.copy_within(from..from + fits, used);
    used + fits
}

// And so many times more.
#[tactic(auto, using(crate::proofs::Copies::repeating_start))]
fn again(out: &mut [u32], used: usize, size: usize, times: u16) -> usize
    requires { (size ≤ used) × (used ≤ length out.old) }
    ensures { window_of 0 result out.new ≡ notes (window_of 0 used out.old) (times_of times (take size (drop (used - size) out.old))) }
{
    if size == 0 {
        return used;
    }
    let mut to = used;
    for _ in 0..times {
        if out.len() <= to {
            return to;
        }
        to = copied(out, to, size);
    }
    to
}

impl Walked {
    // One more line: passed over, noted, or too late.
    #[tactic(auto, using(crate::proofs::Windows::one_more))]
    fn note(self, out: &mut [u32], p: u32) -> Walked
        ensures { (result.at ≡ self.at) × (window_of result.skip result.used out.new ≡ note_of (window_of self.skip self.used out.old) p) }
    {
        if 0 < self.skip {
            return Walked {
                skip: self.skip - 1,
                ..self
            };
        }
        if self.used < out.len() {
            out[self.used] = p;
            return Walked {
                used: self.used + 1,
                ..self
            };
        }
        self
    }

    // A block was walked once, and `from` is where its window began. This makes the repetitions that need no walk: where all of it was
    // noted, copies of it; where all was passed over, as many as division finds.
    fn onward(self, out: &mut [u32], from: Walked, left: u16) -> Repeated
        requires { (self.skip ≤ from.skip) × (from.used ≤ self.used) × (self.used ≤ length out.old) × (from.used < self.used → self.skip ≡ 0) }
        ensures few { result.done ≤ left }
        ensures place { result.walk.at ≡ self.at }
        ensures noted { (o : List ℕ) → Last o (from.skip - self.skip) (self.used - from.used) self.used out.old
            → window_of result.walk.skip result.walk.used out.new ≡ notes (window_of self.skip self.used out.old) (times_of result.done o) }
    {
        let passed = from.skip - self.skip;
        let noted = self.used - from.used;
        if out.len() <= self.used {
            return Repeated {
                walk: self,
                done: 0,
            };
        }
        if passed == 0 {
            let used = again(out, self.used, noted, left);
            return Repeated {
                walk: Walked { used, ..self },
                done: left,
            };
        }
        if 0 < noted {
            return Repeated {
                walk: self,
                done: 0,
            };
        }
        let q = (self.skip / passed).min(usize::from(left));
        let skip = self.skip - q * passed;
        Repeated {
            walk: Walked { skip, ..self },
            done: q as u16,
        }
    }
}

// A session: its text, and the places of its lines in it.
#[derive(Clone, Copy)]
struct Session<'a> {
    text: &'a [u8],
    table: &'a [u32],
}

impl<'a> Session<'a> {
    // The line behind the close of the block whose lines begin at `at`.
    fn past(self, at: usize, levels: u8) -> usize
        requires { at ≤ length self.table.now }
        ensures { ((at ≤ result) × (result ≤ length self.entry.table.now))
            × (blocks_of (line_at self.entry.text.now) (levels + 1) (drop result self.entry.table.now)
            ≡ others (blocks_of (line_at self.entry.text.now) levels (drop at self.entry.table.now))) }
    {
        let mut depth: u8 = 0;
        for (n, &p) in self.table[at..].iter().enumerate() {
            if marks::closes_at(self.text, p) {
                if depth == 0 {
                    return at + n + 1;
                }
                depth -= 1;
            } else if marks::turns_at(self.text, p, levels - depth).is_some() {
                depth += 1;
            }
        }
        self.table.len()
    }

    // A line that closes nothing: it is noted, or it opens a repeat, and a block with one level fewer runs so often.
    #[cycle(block_line)]
    fn line(self, out: &mut [u32], from: Walked, levels: u8) -> Walked
        requires { (from.at < length self.table.now) × (from.used < length out.old) }
        ensures { ThroughLine (line_at self.entry.text.now) self.entry.table.now from.at levels (window_of from.skip from.used out.old) result out.new }
    {
        let p = self.table[from.at];
        let at = from.at + 1;
        let Some(n) = marks::turns_at(self.text, p, levels) else {
            return Walked { at, ..from }.note(out, p);
        };
        let low = levels - 1;
        if n == 0 {
            let at = self.past(at, low);
            return Walked { at, ..from };
        }
        let mut walk = Walked { at, ..from };
        // A block says where its walk goes on, so no range can.
        let mut done: u16 = 0;
        while (done < n) & (walk.used < out.len()) {
            let b = self.block(out, Walked { at, ..walk }, low);
            let left = n - done - 1;
            let g = b.onward(out, walk, left);
            walk = g.walk;
            done = done + 1 + g.done;
        }
        walk
    }

    // A block's lines one by one, until it closes or the window is full.
    #[cycle(block_line)]
    fn block(self, out: &mut [u32], from: Walked, levels: u8) -> Walked
        requires { (from.at ≤ length self.table.now) × (from.used < length out.old) }
        ensures { ThroughBlock (line_at self.entry.text.now) self.entry.table.now from.at levels (window_of from.skip from.used out.old) result out.new }
    {
        // A line says where the walk goes on, so no range can.
        let mut walk = from;
        while (walk.at < self.table.len()) & (walk.used < out.len()) {
            let p = self.table[walk.at];
            if marks::closes_at(self.text, p) {
                return Walked {
                    at: walk.at + 1,
                    ..walk
                };
            }
            walk = self.line(out, walk, levels);
        }
        walk
    }
}

// The places of the written-out session's lines, from line `from` on, as many as there is room for.
pub fn window(text: &[u8], table: &[u32], from: usize, out: &mut [u32]) -> usize
    ensures { Written out.old out.new result (take (length out.old) (drop from (written_out (line_at text.now) table.now))) }
{
    if out.len() == 0 {
        return 0;
    }
    let session = Session { text, table };
    let first = Walked {
        at: 0,
        skip: from,
        used: 0,
    };
    let b = session.block(out, first, marks::DEEPEST);
    b.used
}

// Whether more lines than so many are written out: whether a window behind them has one.
fn over(text: &[u8], table: &[u32], most: usize) -> bool
    ensures { result ≡ ltb most (length (written_out (line_at text.now) table.now)) }
{
    let mut one = [0u32; 1];
    let more = window(text, table, most, &mut one);
    0 < more
}

// Why a session is refused, if it is.
#[tactic(auto, unfolding(crate::specs::Judged::refusal_of))]
pub fn refusal(text: &[u8], table: &[u32]) -> Result<(), Refusal>
    ensures { result ≡ refusal_of (line_at text.now) (length text.now) table.now }
{
    if 32768 < text.len() {
        return Err(Refusal::FileTooLong);
    }
    marks::matched(text, table)?;
    if over(text, table, 1000000) {
        return Err(Refusal::TooManyLines);
    }
    Ok(())
}
