// Reading and writing where a failure is told: standard error says why, under the program's name.
#![tactic(auto)]

ghost use Rattle.std.specs.Prelude.{◌≡◌, ◌≤◌, true, length, IfSome};
ghost use Rattle.std.specs.Io.KnownBytes.{Appends};
ghost use Rattle.pipes.specs.Pipes.{Took};

use std::io;
use std::io::Eprint;

// A program's name, where it says what failed, and its input and output.
#[derive(Drop)]
pub struct Pipes<E, R, W> {
    pub name: &'static str,
    pub says: E,
    pub input: R,
    pub output: W,
}

impl<E: Eprint, R: io::Read, W: io::Write> Pipes<E, R, W> {
    // How many bytes one read put into the space: 0 only at the end of the input, and none where it failed.
    pub fn read(&mut self, space: &mut [u8]) -> Option<usize>
        ensures within { IfSome result (λ n. n ≤ length space.new) }
        ensures bytes { Took (R.remaining self.old.input) (R.remaining self.new.input) result space.new }
        ensures others { self.new ≡ record self.old { input = self.new.input } }
    {
        match self.input.read(space) {
            Ok(n) => Some(n),
            Err(e) => {
                let _ = eprintln!(self.says; "{}: standard input: {e}", self.name);
                None
            }
        }
    }

    // Whether all of a text was written.
    pub fn write(&mut self, text: &[u8]) -> bool
        ensures bytes { result ≡ true → Appends (W.contents self.old.output) (W.contents self.new.output) text.now }
        ensures others { self.new ≡ record self.old { output = self.new.output } }
    {
        match self.output.write_all(text) {
            Ok(()) => true,
            Err(e) => {
                let _ = eprintln!(self.says; "{}: standard output: {e}", self.name);
                false
            }
        }
    }
}
