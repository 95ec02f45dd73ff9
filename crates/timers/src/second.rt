// T2.
ghost use Rattle.std.specs.Prelude.{◌≡◌, ℕ};
ghost use Rattle.clocks.specs.Clocks.{after};
ghost use Rattle.clocks.specs.Forecasts.{comes};
ghost use Rattle.timers.specs.Second.{counted as counted_of, clocked as clocked_of, pulsed as pulsed_of};

use crate::T2;
use clocks::Forecast;

impl T2 {
    // One count, by a clock or by a pulse on PB6.
    #[tactic(auto, using(clocks::proofs::Clocks::lowered), unfolding(crate::specs::Second::counted))]
    pub fn counted(self) -> T2
        ensures { result ≡ counted_of self }
    {
        T2 {
            counter: std::num::wrapping_sub_u16(self.counter, 1),
            armed: self.armed & (self.counter != 0),
            flag: self.armed & (self.counter == 0) | self.flag,
            ..self
        }
    }

    #[tactic(auto, unfolding(crate::specs::Second::clocked))]
    pub fn clock(self) -> T2
        ensures { result ≡ clocked_of self }
    {
        if self.pulse { self } else { self.counted() }
    }

    // A fall of PB6 counts where pulses do.
    #[tactic(auto, unfolding(crate::specs::Second::pulsed))]
    pub fn pulsed(self, fall: bool) -> T2
        ensures { result ≡ pulsed_of fall self }
    {
        if self.pulse & fall {
            self.counted()
        } else {
            self
        }
    }

    // n clocks, in a number of steps that does not grow with n.
    #[tactic(auto, using(crate::proofs::Seconds::resting, crate::proofs::Seconds::ran_short, crate::proofs::Seconds::ran_past))]
    pub fn run(mut self, n: u32) -> T2
        ensures { result ≡ after n clocked_of self }
    {
        if self.pulse {
            return self;
        }
        let counter = self.counter as u32;
        if n <= counter {
            self.counter = (counter - n) as u16;
            return self;
        }
        self.counter = (65535 - (n - counter - 1) % 65536) as u16;
        self.flag = self.armed | self.flag;
        self.armed = false;
        self
    }

    // When the flag is set, with PB6 still.
    #[tactic(auto, using(crate::proofs::Seconds::flag_due))]
    pub fn due(self) -> Forecast
        ensures { (k : ℕ) → (after k clocked_of self).flag ≡ comes result k }
    {
        if self.flag {
            return Forecast::In(0);
        }
        if self.armed & !self.pulse {
            Forecast::In(self.counter as u32 + 1)
        } else {
            Forecast::Never
        }
    }
}
