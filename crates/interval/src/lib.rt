// The 6532's interval timer by value: a byte that counts down behind a divider, with a flag for its first passing of zero.
#![tactic(auto)]

ghost use Rattle.std.specs.Prelude.{◌≡◌, if◌then◌else◌};
ghost use Rattle.clocks.specs.Clocks.{after};
ghost use Rattle.interval.specs.Timer.{well_timed, power_up, divider_of, loaded, clocked, Due};

use clocks::Forecast;

mod closed;

// `prescaler`: clocks left to the next count, of `divider` between two. `expired`: zero has been passed, and each clock counts.
#[derive(Clone, Copy)]
pub struct Timer {
    pub value: u8,
    pub divider: u16,
    pub prescaler: u16,
    pub expired: bool,
    pub flag: bool,
    pub enable: bool,
}

// A choice above 3 counts as 3.
fn divider(choice: u8) -> u16
    ensures { result ≡ divider_of choice }
{
    1 << Timer::AMOUNTS[choice.min(3) as usize]
}

impl Timer {
    // How far 1 is shifted for each divider: 1, 8, 64, 1024.
    const AMOUNTS: [u8; 4] = [0, 3, 6, 10];

    pub fn power_up() -> Timer
        ensures { result ≡ power_up }
    {
        Timer::load(3, 255, false)
    }

    pub fn well(self) -> bool
        ensures { result ≡ well_timed self }
    {
        let d = self.divider;
        let p = self.prescaler;
        ((d == 1) | (d == 8) | (d == 64) | (d == 1024))
            & (1 <= p)
            & (p <= d)
            & (!self.expired | (p == 1))
    }

    // A timer just loaded; `choice` is the two address bits that pick the divider.
    pub fn load(choice: u8, value: u8, enable: bool) -> Timer
        ensures { result ≡ loaded choice value enable }
    {
        Timer {
            value,
            divider: divider(choice),
            prescaler: 1,
            expired: false,
            flag: false,
            enable,
        }
    }

    #[tactic(auto, unfolding(crate::specs::Timer::clocked))]
    pub fn clock(mut self) -> Timer
        ensures { result ≡ clocked self }
    {
        if self.expired {
            self.value = std::num::wrapping_sub_u8(self.value, 1);
            return self;
        }
        if 1 < self.prescaler {
            self.prescaler -= 1;
            return self;
        }
        if self.value == 0 {
            return self.spent(255);
        }
        self.value -= 1;
        self.prescaler = self.divider;
        self
    }

    // n clocks, in a number of steps that does not grow with n; an ill-formed timer is left alone.
    #[tactic(auto, using(crate::proofs::Runs::ran_short, crate::proofs::Runs::ran_past))]
    pub fn run(self, n: u32) -> Timer
        ensures { result ≡ (if well_timed self then after n clocked self else self) }
    {
        if !self.well() {
            return self;
        }
        let counts = self.counts();
        if n <= counts {
            return self.fallen(counts - n);
        }
        self.spent((255 - (n - counts - 1) % 256) as u8)
    }

    // When the flag is set, if nothing but clocks changes the timer.
    #[tactic(auto, using(crate::proofs::Runs::flag_due))]
    pub fn due(self) -> Forecast
        ensures { Due self result }
    {
        if !self.well() || self.flag {
            return Forecast::In(0);
        }
        if self.expired {
            Forecast::Never
        } else {
            Forecast::In(self.counts() + 1)
        }
    }
}
