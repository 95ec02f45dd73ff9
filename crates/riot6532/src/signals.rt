// The interrupt line, and when it is asserted.
ghost use Rattle.std.specs.Prelude.{◌≡◌};
ghost use Rattle.riot6532.specs.Flags.{irq_of};
ghost use Rattle.riot6532.specs.Closed.{soonest_of};

use crate::Io;
use clocks::Forecast;

impl Io {
    pub(crate) fn irq(self) -> bool
        ensures { result ≡ irq_of self }
    {
        self.timer.flag & self.timer.enable | self.pa7.flag & self.pa7.enable
    }

    // When the line is asserted, by when the timer's flag is set: PA7's flag does it now, or no clock will.
    pub(crate) fn soonest(self, due: Forecast) -> Forecast
        ensures { result ≡ soonest_of due self }
    {
        let pa7 = Forecast::In(0).gated(self.pa7.flag & self.pa7.enable);
        due.gated(self.timer.enable).sooner(pa7)
    }
}
