// New levels outside.
#![tactic(auto, unfolding(crate::specs::Pins::pins_asks, crate::specs::Pins::pulsed, crate::specs::Pins::shift_pulsed, crate::specs::Pins::settled, clocks::specs::Bits::with_bit))]

ghost use Rattle.std.specs.Prelude.{◌≡◌};
ghost use Rattle.via6522.specs.Pins.{pins_asks, pulsed as pulsed_of, with_pulse, shift_pulsed, settled as settled_of};

use crate::Via;
use calls::Refusal;
use clocks::{bit, choose, with_mask};
use flags::{Edges, Side};
use ports::{Port, edge};
use shifter::Shifter;
use timers::T2;

pub(crate) fn pins_asks(control: u8) -> Option<Refusal>
    ensures { result ≡ pins_asks control }
{
    (15 < control).then_some(Refusal::NoLevel)
}

impl Via {
    // With T2 after a fall of PB6 outside.
    #[tactic(auto, using(crate::proofs::Lens::pulsed_low), unfolding(crate::specs::Pins::pulsed, crate::specs::Clock::timers_of, clocks::specs::Bits::with_bit))]
    pub(crate) fn pulsed(self, pb: u8) -> Via
        ensures { result ≡ with_pulse (pulsed_of pb self) self }
    {
        let fall = edge(false, bit(6, self.b.outside), bit(6, pb));
        let t2 = T2::from(self).pulsed(fall);
        Via {
            t2: t2.into(),
            ifr: with_mask(32, t2.flag, self.ifr),
            ..self
        }
    }

    // The shift register after a rise of CB1 outside, with CB2 as the call leaves it.
    pub(crate) fn shift_pulsed(self, control: u8) -> Shifter
        ensures { result ≡ shift_pulsed control self }
    {
        let rise = edge(true, bit(2, self.control), bit(2, control));
        Shifter::from(self).pulsed(rise, bit(3, control))
    }

    // The edges of the control lines, and the lines that their flags keep.
    pub(crate) fn settled(self, pa: u8, pb: u8, control: u8) -> Via
        ensures { result ≡ settled_of pa pb control self }
    {
        let edges = Edges {
            pcr: self.pcr,
            old: self.control,
            new: control,
        };
        let keeps_a = edges.keeps(Side::A, self.ifr);
        let keeps_b = edges.keeps(Side::B, self.ifr);
        Via {
            a: Port {
                outside: pa,
                ..self.a
            },
            kept_a: choose(keeps_a, self.a.lines_for(pa), self.kept_a),
            b: Port {
                outside: pb,
                ..self.b
            },
            kept_b: choose(keeps_b, self.lines_b(pb), self.kept_b),
            ifr: edges.raised(self.ifr),
            control,
            ..self
        }
    }
}
