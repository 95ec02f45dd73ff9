// The 6525: three ports, the third of them either a port like the others or five interrupt inputs. A call takes the record and hands it back inside its answer.
#![tactic(auto)]

ghost use Rattle.std.specs.Prelude.{◌≡◌, if◌then◌else◌};
ghost use Rattle.chips.specs.Chips.{answer};
ghost use Rattle.tpi6525.specs.Record.{well_formed, power_up};
ghost use Rattle.tpi6525.specs.Access.{register_asks};
ghost use Rattle.tpi6525.specs.Chip.{chip, accepted as accepted_of, refused as refused_of};

use calls::{Call25, Refusal};
use clocks::choose;
use inputs::Inputs;
use ports::Port;

mod access;
mod signals;

// The ports, the control register CR, and the interrupt inputs.
#[derive(Clone, Copy)]
pub struct Tpi {
    pub a: Port,
    pub b: Port,
    pub c: Port,
    pub cr: u8,
    pub inputs: Inputs,
}

// The answer to a call: what it was refused for, the byte that it read, the lines and the record as it left them.
#[derive(Clone, Copy)]
pub struct Answer {
    pub refusal: Option<Refusal>,
    pub data: u8,
    pub irq: bool,
    pub pa: u8,
    pub pb: u8,
    pub pc: u8,
    pub tpi: Tpi,
}

#[tactic(auto, unfolding(chips::specs::Chips::answer, crate::specs::Access::data_of, crate::specs::Access::read_of))]
impl Tpi {
    // The active interrupt register.
    pub const AIR: u8 = 7;

    // The highest register: an access above it is refused.
    pub const LAST_REGISTER: u8 = 7;

    pub fn power_up() -> Tpi
        ensures { result ≡ power_up }
    {
        Tpi {
            a: Port::power_up(),
            b: Port::power_up(),
            c: Port::power_up(),
            cr: 0,
            inputs: Inputs::idle(),
        }
    }

    fn accepted(self, data: u8) -> Answer
        ensures { result ≡ accepted_of «data» self }
    {
        let irq = self.irq();
        Answer {
            refusal: None,
            data,
            irq,
            pa: self.a.lines(),
            pb: self.b.lines(),
            pc: self.lines_c(irq),
            tpi: self,
        }
    }

    fn refused(self, refusal: Refusal) -> Answer
        ensures { result ≡ refused_of refusal self }
    {
        Answer {
            refusal: Some(refusal),
            data: 0,
            irq: false,
            pa: 0,
            pb: 0,
            pc: 0,
            tpi: self,
        }
    }

    // The first refusal that applies, `asked` being that of the operands.
    fn refusal(self, asked: Option<Refusal>) -> Option<Refusal>
        ensures { result ≡ (if well_formed self then asked else Some Refusal.IllFormed) }
    {
        choose(self.inputs.well(), asked, Some(Refusal::IllFormed))
    }

    fn access_refusal(self, register: u8) -> Option<Refusal>
        ensures { result ≡ (if well_formed self then register_asks register else Some Refusal.IllFormed) }
    {
        self.refusal((Tpi::LAST_REGISTER < register).then_some(Refusal::NoRegister))
    }

    pub fn reset(mut self) -> Answer
        ensures { result ≡ answer chip Call25.Reset self }
    {
        if let Some(refusal) = self.refusal(None) {
            return self.refused(refusal);
        }
        self.a = self.a.silent();
        self.b = self.b.silent();
        self.c = self.c.silent();
        self.cr = 0;
        self.inputs = Inputs::idle();
        self.accepted(0)
    }

    pub fn read(mut self, register: u8) -> Answer
        ensures { result ≡ answer chip (Call25.Read register) self }
    {
        if let Some(refusal) = self.access_refusal(register) {
            return self.refused(refusal);
        }
        let data = self.data(register);
        if register == Tpi::AIR {
            self.inputs = self.inputs.taken(data);
        }
        self.accepted(data)
    }

    pub fn write(self, register: u8, value: u8) -> Answer
        ensures { result ≡ answer chip (Call25.Write register value) self }
    {
        if let Some(refusal) = self.access_refusal(register) {
            return self.refused(refusal);
        }
        self.stored(register, value).accepted(0)
    }

    pub fn pins(mut self, pa: u8, pb: u8, pc: u8) -> Answer
        ensures { result ≡ answer chip (Call25.Pins pa pb pc) self }
    {
        if let Some(refusal) = self.refusal(None) {
            return self.refused(refusal);
        }
        self.inputs = self.inputs.pinned(self.cr, self.c.outside, pc);
        self.a.outside = pa;
        self.b.outside = pb;
        self.c.outside = pc;
        self.accepted(0)
    }

    // Nothing in this chip is clocked.
    pub fn clock(self) -> Answer
        ensures { (result ≡ answer chip (Call25.Run 1) self) × (result.tpi ≡ self) }
    {
        self.run(1)
    }

    pub fn run(self, n: u32) -> Answer
        ensures { (result ≡ answer chip (Call25.Run n) self) × (result.tpi ≡ self) }
    {
        if let Some(refusal) = self.refusal(None) {
            return self.refused(refusal);
        }
        self.accepted(0)
    }
}
