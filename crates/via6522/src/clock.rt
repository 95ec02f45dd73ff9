// The timer pair and the shift register, taken out of the record and put back, and the forecast.
#![tactic(auto, unfolding(crate::specs::Clock::timers_of, crate::specs::Clock::with_timers, crate::specs::Clock::shifter_of, crate::specs::Clock::with_shifter, crate::specs::Closed::steady, crate::specs::Closed::soonest, clocks::specs::Bits::with_bit))]

ghost use Rattle.std.specs.Prelude.{◌≡◌, ℕ};
ghost use Rattle.clocks.specs.Clocks.{after};
ghost use Rattle.clocks.specs.Forecasts.{comes};
ghost use Rattle.via6522.specs.Flags.{irq_of};
ghost use Rattle.via6522.specs.Clock.{timers_of, with_timers as with_timers_of, shifter_of, with_shifter as with_shifter_of, count1_of, count2_of, serial_of, clock_of};
ghost use Rattle.via6522.specs.Closed.{steady as steady_of, soonest as soonest_of};

use crate::{Count1, Count2, Serial, Via};
use clocks::{Forecast, bit, with_mask};
use shifter::Shifter;
use timers::{T1, T2, Timers};

impl From<Via> for T1 {
    ghost from_gives = { λ via r. r ≡ (timers_of via).t1 };

    fn from(via: Via) -> T1 {
        T1 {
            counter: via.t1.counter,
            latch: via.t1.latch,
            armed: via.t1.armed,
            mark: via.t1.mark,
            level: via.t1.level,
            flag: bit(6, via.ifr),
            free: bit(6, via.acr),
        }
    }
}

impl From<Via> for T2 {
    ghost from_gives = { λ via r. r ≡ (timers_of via).t2 };

    fn from(via: Via) -> T2 {
        T2 {
            counter: via.t2.counter,
            low: via.t2.low,
            armed: via.t2.armed,
            flag: bit(5, via.ifr),
            pulse: bit(5, via.acr),
        }
    }
}

impl From<Via> for Timers {
    ghost from_gives = { λ via r. r ≡ timers_of via };

    fn from(via: Via) -> Timers {
        Timers {
            t1: via.into(),
            t2: via.into(),
        }
    }
}

impl From<Via> for Shifter {
    ghost from_gives = { λ via r. r ≡ shifter_of via };

    fn from(via: Via) -> Shifter {
        Shifter {
            byte: via.sr.byte,
            left: via.sr.left,
            half: via.sr.half,
            output: via.sr.output,
            flag: bit(2, via.ifr),
            mode: via.acr / 4 % 8,
        }
    }
}

impl From<T1> for Count1 {
    ghost from_gives = { λ t r. r ≡ count1_of t };

    fn from(t: T1) -> Count1 {
        Count1 {
            counter: t.counter,
            latch: t.latch,
            armed: t.armed,
            mark: t.mark,
            level: t.level,
        }
    }
}

impl From<T2> for Count2 {
    ghost from_gives = { λ t r. r ≡ count2_of t };

    fn from(t: T2) -> Count2 {
        Count2 {
            counter: t.counter,
            low: t.low,
            armed: t.armed,
        }
    }
}

impl From<Shifter> for Serial {
    ghost from_gives = { λ s r. r ≡ serial_of s };

    fn from(s: Shifter) -> Serial {
        Serial {
            byte: s.byte,
            left: s.left,
            half: s.half,
            output: s.output,
        }
    }
}

impl Via {
    // The modes stay with these three: they are ACR's.
    pub(crate) fn with_timers(self, pair: Timers) -> Via
        ensures { result ≡ with_timers_of pair self }
    {
        let ifr = with_mask(32, pair.t2.flag, self.ifr);
        Via {
            t1: pair.t1.into(),
            t2: pair.t2.into(),
            ifr: with_mask(64, pair.t1.flag, ifr),
            ..self
        }
    }

    pub(crate) fn with_shifter(self, s: Shifter) -> Via
        ensures { result ≡ with_shifter_of s self }
    {
        Via {
            sr: s.into(),
            ifr: with_mask(4, s.flag, self.ifr),
            ..self
        }
    }

    // Whether a flag that no clock moves asserts the line.
    fn steady(self) -> bool
        ensures { result ≡ steady_of self }
    {
        let others = with_mask(32, false, with_mask(4, false, self.ifr));
        clocks::shares(with_mask(64, false, others), self.ier)
    }

    // When the line is asserted, given when the flags that clocks move are set.
    fn soonest(self, due1: Forecast, due2: Forecast, due3: Forecast) -> Forecast
        ensures { result ≡ soonest_of self due1 due2 due3 }
    {
        let first = due1.gated(bit(6, self.ier));
        let second = due2.gated(bit(5, self.ier));
        let third = due3.gated(bit(2, self.ier));
        let now = Forecast::In(0).gated(self.steady());
        first.sooner(second.sooner(third.sooner(now)))
    }

    #[tactic(auto, using(crate::proofs::Lines::line_after))]
    pub(crate) fn foreseen(self) -> Forecast
        ensures { (k : ℕ) → irq_of (after k clock_of self) ≡ comes result k }
    {
        self.soonest(
            T1::from(self).due(),
            T2::from(self).due(),
            Shifter::from(self).due(),
        )
    }
}
