// The marks of repeats: which lines open and close them, how deep they stand and whether they match.
#![tactic(auto)]

ghost use Rattle.std.specs.Prelude.{◌≡◌};
ghost use Rattle.lines.specs.Places.{line_at};
ghost use Rattle.marks.specs.Marks.{closes as closes_of, count_of, opens, turns_of};
ghost use Rattle.marks.specs.Matches.{match_of};
ghost use Rattle.marks.specs.Refusals.{number_of};

// Why a session with repeats is refused, by document 02's numbers.
#[derive(Clone, Copy, Debug, PartialEq, Eq)]
pub enum Refusal {
    FileTooLong = 26,
    TooDeep = 27,
    Unmatched = 28,
    TooManyLines = 29,
}

impl Refusal {
    pub fn number(self) -> u8
        ensures { result ≡ number_of self }
    {
        self as u8
    }
}

// How many repeats may stand in one another.
pub const DEEPEST: u8 = 4;

#[tactic(auto, unfolding(crate::specs::Marks::closes))]
fn closes(line: &[u8]) -> bool
    ensures { result ≡ closes_of line.now }
{
    matches!(*line, [b'F', b'1'])
}

#[tactic(auto, unfolding(crate::specs::Marks::count_of))]
fn count(line: &[u8]) -> Option<u16>
    ensures { result ≡ count_of line.now }
{
    match *line {
        [b'F', b'0', a, b, c, d] => digits::word(a, b, c, d),
        _ => None,
    }
}

// Whether the line at a place closes a repeat.
pub fn closes_at(text: &[u8], p: u32) -> bool
    ensures { result ≡ closes_of (line_at text.now p) }
{
    closes(lines::line_at(text, p))
}

fn opens_at(text: &[u8], p: u32) -> bool
    ensures { result ≡ opens (line_at text.now p) }
{
    count(lines::line_at(text, p)).is_some()
}

// How often the line at a place runs the block behind it, with so many levels left; with none it opens nothing.
#[tactic(auto, unfolding(crate::specs::Marks::turns_of))]
pub fn turns_at(text: &[u8], p: u32, levels: u8) -> Option<u16>
    ensures { result ≡ turns_of levels (line_at text.now p) }
{
    if levels == 0 {
        return None;
    }
    count(lines::line_at(text, p))
}

// Whether repeats stand too deep, or else one of them is unmatched.
pub fn matched(text: &[u8], table: &[u32]) -> Result<(), Refusal>
    ensures { result ≡ match_of (line_at text.now) table.now }
{
    let mut depth: u8 = 0;
    let mut lost = false;
    for &p in table {
        if closes_at(text, p) {
            if depth == 0 {
                lost = true;
            } else {
                depth -= 1;
            }
        } else if opens_at(text, p) {
            if depth == DEEPEST {
                return Err(Refusal::TooDeep);
            }
            depth += 1;
        }
    }
    if lost || 0 < depth {
        return Err(Refusal::Unmatched);
    }
    Ok(())
}
