// The pen's strobe, and n clocks.
ghost use Rattle.std.specs.Prelude.{◌≡◌};
ghost use Rattle.clocks.specs.Clocks.{after};
ghost use Rattle.crtc6545.specs.Clock.{strobed as strobed_of, clock_of};

use crate::{Crtc, Kept, Light};

impl Light {
    #[tactic(auto, unfolding(crate::specs::Clock::strobed))]
    fn strobed(mut self, ma: u16) -> Light
        ensures { result ≡ strobed_of ma self }
    {
        if !self.waiting {
            return self;
        }
        [self.r16, self.r17] = ma.to_be_bytes();
        self.full = true;
        self.waiting = false;
        self
    }
}

impl Crtc {
    // Only the first clock can find a strobe waiting, and of the kept signals only those before the last clock are seen.
    #[tactic(auto, unfolding(clocks::specs::Clocks::after))]
    pub(crate) fn ran(mut self, n: u32) -> Crtc
        ensures { result ≡ after n clock_of self }
    {
        if n == 0 {
            return self;
        }
        let first = self.raster.signals();
        let last = longruns::run(self.raster, n - 1);
        let signals = last.signals();
        self.raster = last.clocked();
        self.light = self.light.strobed(first.ma);
        self.kept = Kept {
            de: signals.de,
            cursor: signals.cursor,
        };
        self
    }
}
