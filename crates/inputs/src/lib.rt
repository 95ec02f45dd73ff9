// The 6525's five interrupt inputs, I0 to I4: the edges that are latched, what the active interrupt register shows, and what is in service.
#![tactic(auto)]

ghost use Rattle.std.specs.Prelude.{◌≡◌};
ghost use Rattle.inputs.specs.Inputs.{well_inputs, idle as idle_of, highest_of, edges_of, pinned as pinned_of, shown as shown_of, asserted as asserted_of, taken as taken_of, ended as ended_of, kept as kept_of};

use clocks::{bit, choose, gone};

// Input k is bit k of each: those that are latched, and those in service.
#[derive(Clone, Copy, Default)]
pub struct Inputs {
    pub latch: u8,
    pub service: u8,
}

// The weight of the highest bit that is set; 0 for 0.
#[tactic(auto, using(crate::proofs::Top::highest_none, crate::proofs::Top::moved_down, crate::proofs::Top::few))]
pub fn highest(x: u8) -> u8
    ensures { result ≡ highest_of 8 x }
{
    if x == 0 {
        return 0;
    }
    128u8 >> u8::leading_zeros(x)
}

// The inputs that made their edges. IE4 and IE3, bits 3 and 2 of CR, stand one place below I4 and I3.
#[tactic(auto, using(crate::proofs::Masks::edges_are))]
fn edges(cr: u8, old: u8, new: u8) -> u8
    ensures { result ≡ edges_of 5 cr old new }
{
    let rising = cr / 4 % 4 * 8;
    clocks::merge(rising, gone(new, old), gone(old, new)) % 32
}

impl Inputs {
    pub fn idle() -> Inputs
        ensures { result ≡ idle_of }
    {
        Inputs::default()
    }

    pub fn well(self) -> bool
        ensures { result ≡ well_inputs self }
    {
        (self.latch < 32) & (self.service < 32)
    }

    // New levels on the inputs.
    #[tactic(auto, unfolding(crate::specs::Inputs::pinned, clocks::specs::Bits::with_set))]
    pub fn pinned(mut self, cr: u8, old: u8, new: u8) -> Inputs
        ensures { result ≡ pinned_of cr old new self }
    {
        if bit(0, cr) {
            self.latch |= edges(cr, old, new);
        }
        self
    }

    // What the active interrupt register shows.
    #[tactic(auto, unfolding(crate::specs::Inputs::shown))]
    pub fn shown(self, cr: u8, mask: u8) -> u8
        ensures { result ≡ shown_of cr mask self }
    {
        if !bit(0, cr) {
            return 0;
        }
        let unmasked = self.latch & (mask % 32);
        choose(bit(1, cr), highest(unmasked), unmasked)
    }

    // The interrupt. Inputs in service are all lower than one that is shown alone exactly if they come to less than its weight.
    #[tactic(auto, using(crate::proofs::Holding::with_priority, crate::proofs::Holding::without_priority))]
    pub fn asserted(self, cr: u8, mask: u8) -> bool
        ensures { result ≡ asserted_of cr mask self }
    {
        let shown = self.shown(cr, mask);
        if bit(1, cr) {
            self.service < shown
        } else {
            (shown != 0) & (self.service == 0)
        }
    }

    // A read of the active interrupt register, which showed these.
    #[tactic(auto, unfolding(clocks::specs::Bits::with_set))]
    pub fn taken(mut self, shown: u8) -> Inputs
        ensures { result ≡ taken_of shown self }
    {
        self.latch = gone(self.latch, shown);
        self.service |= shown;
        self
    }

    // A write of it ends service.
    #[tactic(auto, unfolding(crate::specs::Inputs::ended))]
    pub fn ended(mut self, cr: u8) -> Inputs
        ensures { result ≡ ended_of cr self }
    {
        if bit(0, cr) {
            let rest = gone(self.service, highest(self.service));
            self.service = choose(bit(1, cr), rest, 0);
        }
        self
    }

    // A write of port C: the latch keeps what was written as 1.
    #[tactic(auto, unfolding(crate::specs::Inputs::kept))]
    pub fn kept(mut self, cr: u8, value: u8) -> Inputs
        ensures { result ≡ kept_of cr value self }
    {
        if bit(0, cr) {
            self.latch &= value;
        }
        self
    }
}
