// The sixteen registers: which accesses are refused, the byte of each, and what a read and a write leave.
#![tactic(auto, unfolding(crate::specs::Access::restarted, crate::specs::Access::read_asks, crate::specs::Access::data_of, crate::specs::Access::write_asks, crate::specs::Access::stored, crate::specs::Clock::shifter_of, shifter::specs::Shifter::accessed, clocks::specs::Bits::with_bit))]

ghost use Rattle.std.specs.Prelude.{◌≡◌, eqb, if◌then◌else◌};
ghost use Rattle.via6522.specs.Record.{allowed_acr};
ghost use Rattle.via6522.specs.Access.{restarted as restarted_of, data_of, stored as stored_of, read_asks, write_asks};

use crate::{Serial, Via};
use calls::Refusal;
use shifter::Shifter;

pub(crate) fn allowed_acr(acr: u8) -> bool
    ensures { result ≡ allowed_acr acr }
{
    shifter::allowed(acr / 4 % 8)
}

pub(crate) fn read_asks(register: u8) -> Option<Refusal>
    ensures { result ≡ read_asks register }
{
    (15 < register).then_some(Refusal::NoRegister)
}

pub(crate) fn write_asks(register: u8, value: u8) -> Option<Refusal>
    ensures { result ≡ write_asks register value }
{
    if 15 < register {
        return Some(Refusal::NoRegister);
    }
    let left_out = (register == 11) & !allowed_acr(value)
        | (register == 12) & !flags::allowed_pcr(value);
    left_out.then_some(Refusal::LeftOut)
}

impl Via {
    // What an access leaves of the shift register.
    fn restarted(self) -> Serial
        ensures { result ≡ restarted_of self }
    {
        Shifter::from(self).accessed().into()
    }

    // What a read leaves of the shift register.
    pub(crate) fn sr_after(self, register: u8) -> Serial
        ensures { result ≡ (if eqb register 10 then restarted_of self else self.sr) }
    {
        if register == 10 {
            self.restarted()
        } else {
            self.sr
        }
    }

    pub(crate) fn data(self, register: u8) -> u8
        ensures { result ≡ data_of register self }
    {
        let [high1, low1] = self.t1.counter.to_be_bytes();
        let [latch_high, latch_low] = self.t1.latch.to_be_bytes();
        let [high2, low2] = self.t2.counter.to_be_bytes();
        match register {
            0 => self.shown_b(),
            1 => self.shown_a(),
            2 => self.b.ddr,
            3 => self.a.ddr,
            4 => low1,
            5 => high1,
            6 => latch_low,
            7 => latch_high,
            8 => low2,
            9 => high2,
            10 => self.sr.byte,
            11 => self.acr,
            12 => self.pcr,
            13 => flags::shown(self.ifr, self.ier),
            14 => clocks::with_mask(128, true, self.ier),
            _ => self.shown_a(),
        }
    }

    pub(crate) fn stored(mut self, register: u8, value: u8) -> Via
        ensures { result ≡ stored_of register value self }
    {
        let [high, low] = self.t1.latch.to_be_bytes();
        match register {
            0 => self.b.output = value,
            1 | 15 => self.a.output = value,
            2 => self.b.ddr = value,
            3 => self.a.ddr = value,
            4 | 6 => self.t1.latch = u16::from_be_bytes([high, value]),
            5 => {
                self.t1.latch = u16::from_be_bytes([value, low]);
                self.t1.counter = self.t1.latch;
                self.t1.mark = false;
                self.t1.armed = true;
                self.t1.level = false;
            }
            7 => self.t1.latch = u16::from_be_bytes([value, low]),
            8 => self.t2.low = value,
            9 => {
                self.t2.counter = u16::from_be_bytes([value, self.t2.low]);
                self.t2.armed = true;
            }
            10 => {
                self.sr = self.restarted();
                self.sr.byte = value;
            }
            11 => {
                self.acr = value;
                self.sr.left = 0;
                self.sr.half = false;
            }
            12 => self.pcr = value,
            14 => self.ier = flags::enabled(value, self.ier),
            _ => (),
        }
        self
    }
}
