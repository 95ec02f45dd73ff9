// The timer pair of the 6522, T1 and T2, each with its flag and its mode: one clock, n clocks at once, and when each flag is set.
#![tactic(auto)]

ghost use Rattle.std.specs.Prelude.{◌≡◌};
ghost use Rattle.clocks.specs.Clocks.{after};
ghost use Rattle.timers.specs.Pair.{clocked as clocked_pair};

mod first;
mod second;

// T1 and T2 have no rule in common, and nothing is generic over them: their clocks and runs are no trait's.

// `mark`: the counter takes the latch at the next clock. `level`: what T1 puts on PB7. `free`: free-run, else one-shot.
#[repr(C)]
#[derive(Clone, Copy)]
pub struct T1 {
    pub counter: u16,
    pub latch: u16,
    pub armed: bool,
    pub mark: bool,
    pub level: bool,
    pub flag: bool,
    pub free: bool,
}

// `low`: the low latch. `pulse`: pulses on PB6 count, and clocks do not.
#[repr(C)]
#[derive(Clone, Copy)]
pub struct T2 {
    pub counter: u16,
    pub low: u8,
    pub armed: bool,
    pub flag: bool,
    pub pulse: bool,
}

#[repr(C)]
#[derive(Clone, Copy)]
pub struct Timers {
    pub t1: T1,
    pub t2: T2,
}

impl Timers {
    pub fn clock(self) -> Timers
        ensures { result ≡ clocked_pair self }
    {
        Timers {
            t1: self.t1.clock(),
            t2: self.t2.clock(),
        }
    }

    // n clocks, in a number of steps that does not grow with n.
    #[tactic(auto, using(crate::proofs::Pairs::each))]
    pub fn run(self, n: u32) -> Timers
        ensures { result ≡ after n clocked_pair self }
    {
        Timers {
            t1: self.t1.run(n),
            t2: self.t2.run(n),
        }
    }
}
