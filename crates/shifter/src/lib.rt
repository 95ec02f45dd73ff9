// The 6522's shift register by value, with its flag and its mode: one clock, n clocks at once, a pulse on CB1, an access, and when its
// flag is set. CB2's level is handed in, since it is the pin's.
#![tactic(auto)]

ghost use Rattle.std.specs.Prelude.{◌≡◌, Bool, ℕ};
ghost use Rattle.clocks.specs.Clocks.{after};
ghost use Rattle.clocks.specs.Forecasts.{comes};
ghost use Rattle.shifter.specs.Shifter.{by_clock, by_pulse, outward as outward_of, allowed_mode, taken as taken_of, shifted as shifted_of, shifts as shifts_of, marked as marked_of, counting as counting_of, clocked, pulsed as pulsed_of, accessed as accessed_of};

use clocks::{Forecast, bit, choose, with_mask};

// `left`: shifts to come. `half`: the half-clock mark. `output`: what it puts on CB2. `mode`: bits 4 to 2 of ACR, a number, since any byte may stand there.
#[derive(Clone, Copy)]
pub struct Shifter {
    pub byte: u8,
    pub left: u8,
    pub half: bool,
    pub output: bool,
    pub flag: bool,
    pub mode: u8,
}

fn by_clock(mode: u8) -> bool
    ensures { result ≡ by_clock mode }
{
    matches!(mode, 2 | 6)
}

fn by_pulse(mode: u8) -> bool
    ensures { result ≡ by_pulse mode }
{
    matches!(mode, 3 | 7)
}

fn outward(mode: u8) -> bool
    ensures { result ≡ outward_of mode }
{
    matches!(mode, 6 | 7)
}

// False for the modes in which T2 would time the shifts: they are not built.
pub fn allowed(mode: u8) -> bool
    ensures { result ≡ allowed_mode mode }
{
    !matches!(mode, 1 | 4 | 5)
}

impl Shifter {
    // The bit that a shift takes: its own bit 7 outward, else the level offered.
    fn taken(self, level: bool) -> bool
        ensures { result ≡ taken_of level self }
    {
        if outward(self.mode) {
            bit(7, self.byte)
        } else {
            level
        }
    }

    // One shift. None to come stand for 8.
    #[tactic(auto, using(crate::proofs::Shifts::some_to_come), unfolding(crate::specs::Shifter::shifted, clocks::specs::Bits::with_bit))]
    fn shifted(self, level: bool) -> Shifter
        ensures { result ≡ shifted_of level self }
    {
        let left = choose(self.left == 0, 8, self.left) - 1;
        Shifter {
            byte: with_mask(1, self.taken(level), self.byte % 128 * 2),
            left,
            output: self.taken(self.output),
            flag: (left == 0) | self.flag,
            ..self
        }
    }

    fn marked(self, half: bool) -> Shifter
        ensures { result ≡ marked_of half self }
    {
        Shifter { half, ..self }
    }

    // Whether clocks move it.
    fn counting(self) -> bool
        ensures { result ≡ counting_of self }
    {
        by_clock(self.mode) & (self.left != 0)
    }

    // m shifts on end.
    #[tactic(auto, unfolding(clocks::specs::Clocks::in_turn))]
    fn shifts(mut self, m: u8, level: bool) -> Shifter
        ensures { result ≡ shifts_of m (λ k. level) self }
    {
        for _ in 0..m {
            self = self.shifted(level);
        }
        self
    }

    #[tactic(auto, unfolding(crate::specs::Shifter::clocked))]
    pub fn clock(self, level: bool) -> Shifter
        ensures { result ≡ clocked level self }
    {
        if !self.counting() {
            return self;
        }
        if self.half {
            self.shifted(level).marked(false)
        } else {
            self.marked(true)
        }
    }

    // n clocks with CB2 still, in a number of steps that does not grow with n: no more than the shifts to come.
    #[tactic(auto, using(crate::proofs::Runs::resting, crate::proofs::Runs::ran_short, crate::proofs::Runs::ran_past))]
    pub fn run(self, n: u32, level: bool) -> Shifter
        ensures { result ≡ after n (clocked level) self }
    {
        if !self.counting() {
            return self;
        }
        let clocks = n as u64 + self.half as u64;
        if 2 * self.left as u64 <= clocks {
            return self.shifts(self.left, level).marked(false);
        }
        self.shifts((clocks / 2) as u8, level)
            .marked(clocks % 2 == 1)
    }

    // When the flag is set, with CB1 still; CB2 does not matter.
    #[tactic(auto, using(crate::proofs::Runs::flag_due))]
    pub fn due(self) -> Forecast
        ensures { (level : Bool) (k : ℕ) → (after k (clocked level) self).flag ≡ comes result k }
    {
        if self.flag {
            return Forecast::In(0);
        }
        if self.counting() {
            let clocks = 2 * self.left as u32 - self.half as u32;
            Forecast::In(clocks)
        } else {
            Forecast::Never
        }
    }

    // CB1 rises, or does not; `level` is CB2's after it.
    #[tactic(auto, unfolding(crate::specs::Shifter::pulsed))]
    pub fn pulsed(self, rise: bool, level: bool) -> Shifter
        ensures { result ≡ pulsed_of rise level self }
    {
        if by_pulse(self.mode) & rise {
            self.shifted(level)
        } else {
            self
        }
    }

    // A read or a write, the byte apart.
    #[tactic(auto, unfolding(crate::specs::Shifter::accessed))]
    pub fn accessed(mut self) -> Shifter
        ensures { result ≡ accessed_of self }
    {
        self.flag = false;
        if by_clock(self.mode) | by_pulse(self.mode) {
            self.left = 8;
            self.half = false;
        }
        self
    }
}
