// The lines of port B, and what reads of the ports show.
#![tactic(auto, unfolding(crate::specs::Ports::lines_b, crate::specs::Ports::shown_a, crate::specs::Ports::shown_b, clocks::specs::Bits::with_bit))]

ghost use Rattle.std.specs.Prelude.{◌≡◌};
ghost use Rattle.via6522.specs.Ports.{lines_b, shown_a, shown_b};

use crate::Via;
use clocks::{bit, choose};

impl Via {
    // T1 may drive PB7.
    pub(crate) fn lines_b(self, outside: u8) -> u8
        ensures { result ≡ lines_b outside self }
    {
        let lines = self.b.lines_for(outside);
        choose(
            bit(7, self.acr),
            clocks::with_mask(128, self.t1.level, lines),
            lines,
        )
    }

    pub(crate) fn shown_a(self) -> u8
        ensures { result ≡ shown_a self }
    {
        let latched = bit(0, self.acr) & bit(1, self.ifr);
        choose(latched, self.kept_a, self.a.lines())
    }

    // Not port A's rule: a kept line shows only where nothing of the chip drives it.
    pub(crate) fn shown_b(self) -> u8
        ensures { result ≡ shown_b self }
    {
        let latched = bit(1, self.acr) & bit(4, self.ifr);
        self.lines_b(choose(latched, self.kept_b, self.b.outside))
    }
}
