// The eight registers: what a read gives, and what a write stores.
ghost use Rattle.std.specs.Prelude.{◌≡◌};
ghost use Rattle.tpi6525.specs.Access.{data_of, write_of};

use crate::Tpi;
use clocks::bit;

impl Tpi {
    // What a read gives, of the record before it.
    #[tactic(auto, unfolding(crate::specs::Access::data_of))]
    pub(crate) fn data(self, register: u8) -> u8
        ensures { result ≡ data_of register self }
    {
        match register {
            0 => self.a.lines(),
            1 => self.b.lines(),
            2 => self.lines_c(self.irq()),
            3 => self.a.ddr,
            4 => self.b.ddr,
            5 => self.c.ddr,
            6 => self.cr,
            _ => self.inputs.shown(self.cr, self.c.ddr),
        }
    }

    // Port C takes the byte for its latched inputs in interrupt mode, and for its output out of it.
    #[tactic(auto, unfolding(crate::specs::Access::write_of, crate::specs::Access::inputs_after, inputs::specs::Inputs::kept))]
    pub(crate) fn stored(mut self, register: u8, value: u8) -> Tpi
        ensures { result ≡ write_of register value self }
    {
        match register {
            0 => self.a.output = value,
            1 => self.b.output = value,
            2 if !bit(0, self.cr) => self.c.output = value,
            2 => self.inputs = self.inputs.kept(self.cr, value),
            3 => self.a.ddr = value,
            4 => self.b.ddr = value,
            5 => self.c.ddr = value,
            6 => self.cr = value,
            7 => self.inputs = self.inputs.ended(self.cr),
            _ => (),
        }
        self
    }
}
