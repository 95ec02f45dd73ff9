// The chip's entries with the RAM lent beside the rest. An answer of these, made whole with the RAM, is the chip's answer to the call.
ghost use Rattle.std.specs.Prelude.{◌≡◌, List, ℕ, if◌then◌else◌};
ghost use Rattle.chips.specs.Chips.{answer, Foretold};
ghost use Rattle.interval.specs.Timer.{well_timed};
ghost use Rattle.riot6532.specs.Record.{beside};
ghost use Rattle.riot6532.specs.Chip.{chip, clocked, lined, accepted_io, refused_io, whole, reading_of, whole_reading};

use crate::{Io, IoAnswer, IoOutlook, IoReading, Pa7};
use calls::{Call32, Refusal};
use clocks::{Forecast, bit, choose};

#[tactic(auto, unfolding(chips::specs::Chips::answer))]
impl Io {
    fn accepted(self, data: u8) -> IoAnswer
        ensures { result ≡ accepted_io «data» self }
    {
        IoAnswer {
            refusal: None,
            data,
            irq: self.irq(),
            pa: self.a.lines(),
            pb: self.b.lines(),
            io: self,
        }
    }

    fn refused(self, refusal: Refusal) -> IoAnswer
        ensures { result ≡ refused_io refusal self }
    {
        IoAnswer {
            refusal: Some(refusal),
            data: 0,
            irq: false,
            pa: 0,
            pb: 0,
            io: self,
        }
    }

    // No operand of this chip is refused.
    fn refusal(self) -> Option<Refusal>
        ensures { result ≡ (if well_timed self.timer then None else Some Refusal.IllFormed) }
    {
        choose(self.timer.well(), None, Some(Refusal::IllFormed))
    }

    pub fn reset(mut self) -> IoAnswer
        ensures { (m : List ℕ) → whole m result ≡ answer chip Call32.Reset (beside m self) }
    {
        if let Some(refusal) = self.refusal() {
            return self.refused(refusal);
        }
        self.a = self.a.silent();
        self.b = self.b.silent();
        self.timer.flag = false;
        self.timer.enable = false;
        self.pa7 = Pa7::default();
        self.accepted(0)
    }

    #[tactic(auto, using(clocks::proofs::Bits::gone_none), unfolding(chips::specs::Chips::answer, crate::specs::Access::data_of, crate::specs::Access::read_of, crate::specs::Chip::reading_of))]
    // In what it cleared the timer's flag is bit 7, PA7's bit 6.
    pub fn read(self, ram: &[u8; 128], address: u8) -> IoReading
        ensures { whole_reading ram.now result ≡ reading_of address (beside ram.now self) }
    {
        if let Some(refusal) = self.refusal() {
            return IoReading {
                cleared: 0,
                answer: self.refused(refusal),
            };
        }
        if !bit(7, address) {
            return IoReading {
                cleared: 0,
                answer: self.accepted(ram[address as usize % 128]),
            };
        }
        let left = self.after_read(address);
        IoReading {
            cleared: clocks::gone(self.flags(), left.flags()),
            answer: left.accepted(self.data(address)),
        }
    }

    #[tactic(auto, unfolding(chips::specs::Chips::answer, crate::specs::Access::write_of))]
    pub fn write(self, ram: &mut [u8; 128], address: u8, value: u8) -> IoAnswer
        ensures { whole ram.new result ≡ answer chip (Call32.Write address value) (beside ram.old self) }
    {
        if let Some(refusal) = self.refusal() {
            return self.refused(refusal);
        }
        if !bit(7, address) {
            ram[address as usize % 128] = value;
            return self.accepted(0);
        }
        self.written(address, value).accepted(0)
    }

    pub fn pins(mut self, pa: u8, pb: u8) -> IoAnswer
        ensures { (m : List ℕ) → whole m result ≡ answer chip (Call32.Pins pa pb) (beside m self) }
    {
        if let Some(refusal) = self.refusal() {
            return self.refused(refusal);
        }
        let edge = ports::edge(self.pa7.rising, bit(7, self.a.outside), bit(7, pa));
        self.pa7.flag |= edge;
        self.a.outside = pa;
        self.b.outside = pb;
        self.accepted(0)
    }

    #[tactic(auto, unfolding(chips::specs::Chips::answer, clocks::specs::Clocks::after))]
    pub fn clock(mut self) -> IoAnswer
        ensures { (m : List ℕ) → whole m result ≡ answer chip (Call32.Run 1) (beside m self) }
    {
        if let Some(refusal) = self.refusal() {
            return self.refused(refusal);
        }
        self.timer = self.timer.clock();
        self.accepted(0)
    }

    pub fn run(mut self, n: u32) -> IoAnswer
        ensures { (m : List ℕ) → whole m result ≡ answer chip (Call32.Run n) (beside m self) }
    {
        if let Some(refusal) = self.refusal() {
            return self.refused(refusal);
        }
        self.timer = self.timer.run(n);
        self.accepted(0)
    }

    pub fn forecast(self) -> IoOutlook
        ensures { (m : List ℕ) → Foretold chip clocked lined (beside m self) result.forecast (whole m result.answer) }
    {
        if let Some(refusal) = self.refusal() {
            return IoOutlook {
                forecast: Forecast::In(0),
                answer: self.refused(refusal),
            };
        }
        IoOutlook {
            forecast: self.soonest(self.timer.due()),
            answer: self.accepted(0),
        }
    }
}
