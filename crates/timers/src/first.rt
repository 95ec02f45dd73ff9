// T1.
ghost use Rattle.std.specs.Prelude.{◌≡◌, ℕ, ◌≤◌};
ghost use Rattle.clocks.specs.Clocks.{after};
ghost use Rattle.clocks.specs.Forecasts.{comes};
ghost use Rattle.timers.specs.First.{at as at_of, clocked as clocked_of};
ghost use Rattle.timers.specs.Closed.{top_of, turned as turned_of, fallen as fallen_of};

use crate::T1;
use clocks::Forecast;

impl T1 {
    // The counter at `counter`, the mark cleared. Stored, since by struct update a lent clock takes a quarter more instructions.
    fn at(mut self, counter: u16) -> T1
        ensures { result ≡ at_of counter self }
    {
        self.counter = counter;
        self.mark = false;
        self
    }

    // How many counts it is above zero; with the mark set, one more than the latch.
    fn top(self) -> u32
        ensures { (result ≡ top_of self) × (result ≤ 65536) }
    {
        if self.mark {
            self.latch as u32 + 1
        } else {
            self.counter as u32
        }
    }

    // The passing of zero, and q more.
    #[tactic(auto, using(crate::proofs::Parity::turns_round))]
    fn turned(mut self, q: u32) -> T1
        ensures { result ≡ turned_of q self }
    {
        self.counter = 65535;
        self.mark = true;
        self.flag = self.free | self.armed | self.flag;
        if self.free {
            self.level = self.level == (q % 2 == 1);
        } else {
            self.level = self.armed | self.level;
            self.armed = false;
        }
        self
    }

    // The timer at k counts above zero, no passing between.
    fn fallen(self, k: u32) -> T1
        requires { k ≤ top_of self }
        ensures { result ≡ fallen_of k self }
    {
        if k == self.top() {
            self
        } else {
            self.at(k as u16)
        }
    }

    #[tactic(auto, unfolding(crate::specs::First::clocked, clocks::specs::Clocks::after))]
    pub fn clock(self) -> T1
        ensures { result ≡ clocked_of self }
    {
        if self.mark {
            return self.at(self.latch);
        }
        if self.counter == 0 {
            self.turned(0)
        } else {
            self.at(self.counter - 1)
        }
    }

    // n clocks, in a number of steps that does not grow with n.
    #[tactic(auto, using(crate::proofs::Firsts::ran_short, crate::proofs::Firsts::ran_past))]
    pub fn run(self, n: u32) -> T1
        ensures { result ≡ after n clocked_of self }
    {
        let top = self.top();
        if n <= top {
            return self.fallen(top - n);
        }
        let period = self.latch as u32 + 2;
        let past = n - top - 1;
        self.turned(past / period)
            .fallen(period - 1 - past % period)
    }

    // When the flag is set.
    #[tactic(auto, using(crate::proofs::Firsts::flag_due))]
    pub fn due(self) -> Forecast
        ensures { (k : ℕ) → (after k clocked_of self).flag ≡ comes result k }
    {
        if self.flag {
            return Forecast::In(0);
        }
        if self.free | self.armed {
            Forecast::In(self.top() + 1)
        } else {
            Forecast::Never
        }
    }
}
