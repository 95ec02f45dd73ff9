// The 6522: two ports with control lines, two timers, a shift register, and the flags of them all.
// A call takes the record and hands it back inside its answer.
#![tactic(auto, unfolding(chips::specs::Chips::answer, crate::specs::Record::reset_of, crate::specs::Access::read_of, crate::specs::Access::write_of, crate::specs::Pins::pins_of, crate::specs::Chip::reading_of, clocks::specs::Bits::with_bit))]

ghost use Rattle.std.specs.Prelude.{◌≡◌, if◌then◌else◌, Some};
ghost use Rattle.calls.specs.declared.Refusal.TheVariants.{IllFormed};
ghost use Rattle.calls.specs.declared.Call22.{Call22};
ghost use Rattle.chips.specs.Chips.{answer, Foretold};
ghost use Rattle.via6522.specs.Record.{power_up, well_formed};
ghost use Rattle.via6522.specs.Chip.{accepted as accepted_of, refused as refused_of, chip, clocked, lined, largest_forecast, reading_of};

use calls::Refusal;
use clocks::{Forecast, choose};
use ports::Port;
use shifter::Shifter;
use timers::Timers;

mod access;
mod clock;
mod pins;
mod shown;

// T1 but for its flag and its mode, which IFR and ACR have.
#[derive(Clone, Copy)]
pub struct Count1 {
    pub counter: u16,
    pub latch: u16,
    pub armed: bool,
    pub mark: bool,
    pub level: bool,
}

// T2 likewise.
#[derive(Clone, Copy)]
pub struct Count2 {
    pub counter: u16,
    pub low: u8,
    pub armed: bool,
}

// The shift register likewise. `left`: shifts to come. `half`: the half-clock mark. `output`: what it puts on CB2.
#[derive(Clone, Copy, Default)]
pub struct Serial {
    pub half: bool,
    pub left: u8,
    pub output: bool,
    pub byte: u8,
}

// `kept_a`, `kept_b`: the lines that the flags of CA1 and CB1 kept. `control`: the outside levels of CA1, CA2, CB1 and CB2 in bits 0 to 3.
#[derive(Clone, Copy)]
pub struct Via {
    pub a: Port,
    pub kept_a: u8,
    pub b: Port,
    pub kept_b: u8,
    pub t1: Count1,
    pub sr: Serial,
    pub t2: Count2,
    pub acr: u8,
    pub pcr: u8,
    pub ifr: u8,
    pub ier: u8,
    pub control: u8,
}

// The answer to a call: why it was refused, the byte that it read, the lines and the record as it left them.
#[derive(Clone, Copy)]
pub struct Answer {
    pub refusal: Option<Refusal>,
    pub data: u8,
    pub irq: bool,
    pub pa: u8,
    pub pb: u8,
    pub via: Via,
}

pub type Reading = chips::Reading<Answer>;

pub type Outlook = chips::Outlook<Answer>;

impl Via {
    // The largest forecast: a reload to come, from a full latch.
    pub const LARGEST_FORECAST: u32 = 65537;

    // The constant is the number that ForecastBound proves.
    fn largest() -> u32
        ensures { result ≡ largest_forecast }
    {
        Via::LARGEST_FORECAST
    }

    pub fn power_up() -> Via
        ensures { result ≡ power_up }
    {
        Via {
            a: Port::power_up(),
            kept_a: 0,
            b: Port::power_up(),
            kept_b: 0,
            t1: Count1 {
                counter: 65535,
                latch: 65535,
                armed: false,
                mark: false,
                level: true,
            },
            t2: Count2 {
                counter: 65535,
                low: 255,
                armed: false,
            },
            sr: Serial::default(),
            acr: 0,
            pcr: 0,
            ifr: 0,
            ier: 0,
            control: 15,
        }
    }

    fn accepted(self, data: u8) -> Answer
        ensures { result ≡ accepted_of «data» self }
    {
        Answer {
            refusal: None,
            data,
            irq: clocks::shares(self.ifr, self.ier),
            pa: self.a.lines(),
            pb: self.lines_b(self.b.outside),
            via: self,
        }
    }

    fn refused(self, refusal: Refusal) -> Answer
        ensures { result ≡ refused_of refusal self }
    {
        Answer {
            refusal: Some(refusal),
            data: 0,
            irq: false,
            pa: 0,
            pb: 0,
            via: self,
        }
    }

    fn well_formed(self) -> bool
        ensures { result ≡ well_formed self }
    {
        (self.ifr < 128)
            & (self.ier < 128)
            & access::allowed_acr(self.acr)
            & flags::allowed_pcr(self.pcr)
            & (!self.t1.mark | (self.t1.counter == 65535))
            & (self.control < 16)
            & (self.sr.left <= 8)
    }

    // The refusal that applies first, where the operands ask for `asked`.
    fn refusal(self, asked: Option<Refusal>) -> Option<Refusal>
        ensures { result ≡ (if well_formed self then asked else Some IllFormed) }
    {
        choose(self.well_formed(), asked, Some(Refusal::IllFormed))
    }

    pub fn reset(self) -> Answer
        ensures { result ≡ answer chip Call22.Reset self }
    {
        if let Some(refusal) = self.refusal(None) {
            return self.refused(refusal);
        }
        let cleared = Via {
            a: self.a.silent(),
            b: self.b.silent(),
            t1: Count1 {
                armed: false,
                mark: false,
                level: true,
                ..self.t1
            },
            t2: Count2 {
                armed: false,
                ..self.t2
            },
            sr: Serial {
                byte: self.sr.byte,
                ..Serial::default()
            },
            acr: 0,
            pcr: 0,
            ifr: 0,
            ier: 0,
            ..self
        };
        cleared.accepted(0)
    }

    // What it cleared is in the bits of IFR.
    #[tactic(auto, using(clocks::proofs::Bits::gone_none), unfolding(chips::specs::Chips::answer, crate::specs::Access::read_of, crate::specs::Chip::reading_of))]
    pub fn read(self, register: u8) -> Reading
        ensures { result ≡ reading_of register self }
    {
        if let Some(refusal) = self.refusal(access::read_asks(register)) {
            return Reading {
                cleared: 0,
                answer: self.refused(refusal),
            };
        }
        let clears = flags::read_clears(register, self.pcr);
        let after = Via {
            sr: self.sr_after(register),
            ifr: clocks::with_mask(clears, false, self.ifr),
            ..self
        };
        Reading {
            cleared: clocks::gone(self.ifr, after.ifr),
            answer: after.accepted(self.data(register)),
        }
    }

    pub fn write(mut self, register: u8, value: u8) -> Answer
        ensures { result ≡ answer chip (Call22.Write register value) self }
    {
        if let Some(refusal) = self.refusal(access::write_asks(register, value)) {
            return self.refused(refusal);
        }
        let clears = flags::write_clears(register, value, self.pcr);
        self.ifr = clocks::with_mask(clears, false, self.ifr);
        self.stored(register, value).accepted(0)
    }

    pub fn pins(self, pa: u8, pb: u8, control: u8) -> Answer
        ensures { result ≡ answer chip (Call22.Pins pa pb control) self }
    {
        if let Some(refusal) = self.refusal(pins::pins_asks(control)) {
            return self.refused(refusal);
        }
        let sr = self.shift_pulsed(control);
        self.pulsed(pb)
            .with_shifter(sr)
            .settled(pa, pb, control)
            .accepted(0)
    }

    pub fn clock(self) -> Answer
        ensures { result ≡ answer chip (Call22.Run 1) self }
    {
        self.run(1)
    }

    // n clocks, in a number of steps that does not grow with n.
    #[tactic(auto, using(crate::proofs::Lens::parts_after), unfolding(chips::specs::Chips::answer))]
    pub fn run(self, n: u32) -> Answer
        ensures { result ≡ answer chip (Call22.Run n) self }
    {
        if let Some(refusal) = self.refusal(None) {
            return self.refused(refusal);
        }
        let pair = Timers::from(self).run(n);
        let sr = Shifter::from(self).run(n, clocks::bit(3, self.control));
        self.with_shifter(sr).with_timers(pair).accepted(0)
    }

    pub fn forecast(self) -> Outlook
        ensures { Foretold chip clocked lined self result.forecast result.answer }
    {
        if let Some(refusal) = self.refusal(None) {
            return Outlook {
                forecast: Forecast::In(0),
                answer: self.refused(refusal),
            };
        }
        Outlook {
            forecast: self.foreseen(),
            answer: self.accepted(0),
        }
    }
}
