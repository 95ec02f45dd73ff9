// The parts of a reply's line. Each function writes after the first `at` bytes and gives the place after what it wrote; `Put` speaks of
// the whole buffer, so the place goes beside it.
ghost use Rattle.std.specs.Prelude.{◌≡◌, [], ◌∷◌, ◌+◌, ◌*◌, ◌<◌, ◌≤◌, length, flat_map};
ghost use Rattle.replies.specs.Hex.{digit_of, hex_of};
ghost use Rattle.replies.specs.Replies.{Appended};

// `digit_of`, in as many lines; a formatter would want a buffer of its own.
fn digit(n: u8) -> u8
    requires { n < 16 }
    ensures { result ≡ digit_of n }
{
    if n < 10 { n + 48 } else { n + 55 }
}

// Two digits a byte.
pub(crate) fn put_bytes(out: &mut [u8], at: usize, bytes: &[u8]) -> usize
    requires { at + 2 * length bytes.now ≤ length out.old }
    ensures { Appended out.old out.new at result (flat_map hex_of bytes.now) }
{
    for (i, &b) in bytes.iter().enumerate() {
        let here = at + 2 * i;
        out[here] = digit(b / 16);
        out[here + 1] = digit(b % 16);
    }
    at + 2 * bytes.len()
}

pub(crate) fn put_end(out: &mut [u8], at: usize) -> usize
    requires { at + 1 ≤ length out.old }
    ensures { Appended out.old out.new at result (10 ∷ []) }
{
    out[at] = 10;
    at + 1
}
