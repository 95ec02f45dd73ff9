// Where a number of clocks leads, without going through them. Well-formed timers have no type of their own: the public functions take any.
ghost use Rattle.std.specs.Prelude.{◌≡◌, ◌<◌, ◌≤◌, true};
ghost use Rattle.interval.specs.Timer.{well_timed};
ghost use Rattle.interval.specs.Closed.{counts_of, fallen as fallen_of, spent as spent_of};

use crate::Timer;

impl Timer {
    // The timer at `k`, after it passed zero: only the first passing sets the flag.
    pub(crate) fn spent(mut self, k: u8) -> Timer
        ensures { result ≡ spent_of k self }
    {
        self.value = k;
        self.prescaler = 1;
        self.flag |= !self.expired;
        self.expired = true;
        self
    }

    // How many counts it is above zero.
    pub(crate) fn counts(self) -> u32
        requires { well_timed self ≡ true }
        ensures { (result ≡ counts_of self) × (result < 262144) }
    {
        let value = self.value as u32;
        if self.expired {
            value
        } else {
            self.prescaler as u32 - 1 + self.divider as u32 * value
        }
    }

    // The timer at `k` counts above zero, no passing between.
    pub(crate) fn fallen(mut self, k: u32) -> Timer
        requires { (well_timed self ≡ true) × (k ≤ counts_of self) }
        ensures { result ≡ fallen_of k self }
    {
        if self.expired {
            self.value = k as u8;
            return self;
        }
        let d = self.divider as u32;
        self.value = (k / d) as u8;
        self.prescaler = (k % d + 1) as u16;
        self
    }
}
