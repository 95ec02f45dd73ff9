// A file as lines, each ended by an LF: where one ends, what is kept of one that is still open, and the places of lines in a text.
#![tactic(auto)]

ghost use Rattle.std.specs.Prelude.{◌≡◌, ◌+◌, ◌/◌, ◌%◌, ◌<◌, ◌≤◌, min, length, take, nat_eq, position, IfSome};
ghost use Rattle.lines.specs.Lines.{end_from};
ghost use Rattle.lines.specs.Keeps.{Keeps};
ghost use Rattle.lines.specs.Written.{Written};
ghost use Rattle.lines.specs.Places.{placed, line_at, cut_of};

fn first_lf(s: &[u8]) -> Option<usize>
    ensures place { result ≡ position (λ b. nat_eq b 10) s.now }
    ensures within { IfSome result (λ n. n < length s.now) }
{
    s.iter().position(|&b| b == b'\n')
}

// The place of the first LF from `from` on; where there is none, the length.
pub fn end_from(s: &[u8], from: usize) -> usize
    ensures { result ≡ end_from s.now from }
{
    let from = from.min(s.len());
    match first_lf(&s[from..]) {
        Some(n) => from + n,
        None => s.len(),
    }
}

// Of the bytes from `used` up to n, which are an open line, at most `most` are kept, at the front of the buffer.
#[tactic(auto, using(crate::proofs::Keeping::keeps, crate::proofs::Keeping::keeps_none))]
pub fn keep(buf: &mut [u8], used: usize, n: usize, most: usize) -> usize
    ensures { Keeps buf.old buf.new used n most result }
{
    if n < used || buf.len() < n {
        return 0;
    }
    let kept = most.min(n - used);
    buf.copy_within(used..used + kept, 0);
    kept
}

// Where the line at a place ends, and where it begins, both within the text.
pub fn end_at(text: &[u8], p: u32) -> usize
    ensures { result ≡ min (p / 65536) (length text.now) }
{
    text.len().min((p / 65536) as usize)
}

pub fn start_at(text: &[u8], p: u32) -> usize
    ensures { result ≡ min (p % 65536) (min (p / 65536) (length text.now)) }
{
    end_at(text, p).min((p % 65536) as usize)
}

// The line at a place.
#[tactic(auto, using(crate::proofs::Places::part_line))]
pub fn line_at(text: &[u8], p: u32) -> &[u8]
    ensures { result.now ≡ line_at text.now p }
{
    let end = end_at(text, p);
    let start = start_at(text, p);
    &text[start..end]
}

// One number for both ends, since tables of places are lent and copied as numbers.
fn place(at: usize, end: usize) -> u32
    requires { (at ≤ 65535) × (end ≤ 65535) }
    ensures { result ≡ placed at end }
{
    (end as u32) * 65536 + (at as u32)
}

// The places of a text's lines, as many as there is room for. A text of more than 65,535 bytes has none, since a place has 16 bits for
// each end of a line.
#[tactic(auto, using(crate::proofs::Cutting::in_order, crate::proofs::Cutting::cutting_start))]
pub fn cut(text: &[u8], out: &mut [u32]) -> usize
    ensures { Written out.old out.new result (take (length out.old) (cut_of text.now)) }
{
    if 65535 < text.len() {
        return 0;
    }
    let mut at = 0;
    for (used, slot) in out.iter_mut().enumerate() {
        if text.len() <= at {
            return used;
        }
        let end = end_from(text, at);
        *slot = place(at, end);
        at = end + 1;
    }
    out.len()
}
