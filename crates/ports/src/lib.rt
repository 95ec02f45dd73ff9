// A port of eight lines, as the 6522 and the 6532 have two of and the 6525 three, and the edges of a level.
#![tactic(auto)]

ghost use Rattle.std.specs.Prelude.{◌≡◌};
ghost use Rattle.ports.specs.Ports.{fresh, silent as silent_of, lines_for, lines_of, edge as edge_of};

// The output bits, the levels outside, and the direction bits: 1 drives the line.
#[derive(Clone, Copy)]
pub struct Port {
    pub output: u8,
    pub outside: u8,
    pub ddr: u8,
}

impl Port {
    pub fn power_up() -> Port
        ensures { result ≡ fresh }
    {
        Port {
            output: 0,
            outside: 255,
            ddr: 0,
        }
    }

    // What a reset leaves: the levels outside are not the chip's to change.
    pub fn silent(mut self) -> Port
        ensures { result ≡ silent_of self }
    {
        self.output = 0;
        self.ddr = 0;
        self
    }

    // The lines under other levels outside.
    pub fn lines_for(self, outside: u8) -> u8
        ensures { result ≡ lines_for outside self }
    {
        clocks::merge(self.ddr, self.output, outside)
    }

    pub fn lines(self) -> u8
        ensures { result ≡ lines_of self }
    {
        self.lines_for(self.outside)
    }
}

// Whether a level made the chosen edge; a bit of a register chooses.
pub fn edge(rising: bool, old: bool, new: bool) -> bool
    ensures { result ≡ edge_of rising old new }
{
    if rising { !old & new } else { old & !new }
}
