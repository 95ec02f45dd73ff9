// The interrupt, and the lines of port C.
ghost use Rattle.std.specs.Prelude.{◌≡◌};
ghost use Rattle.tpi6525.specs.Signals.{irq_of, lines_with};

use crate::Tpi;
use clocks::{bit, with_mask};

impl Tpi {
    pub(crate) fn irq(self) -> bool
        ensures { result ≡ irq_of self }
    {
        self.inputs.asserted(self.cr, self.c.ddr)
    }

    // The lines of port C under such an interrupt, which pulls line 5 low in interrupt mode.
    #[tactic(auto, unfolding(clocks::specs::Bits::with_bit))]
    pub(crate) fn lines_c(self, irq: bool) -> u8
        ensures { result ≡ lines_with irq self }
    {
        if bit(0, self.cr) {
            with_mask(32, !irq, self.c.outside)
        } else {
            self.c.lines()
        }
    }
}
