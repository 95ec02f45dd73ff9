// One call of a session on its chip: what is left of the chip, and the reply.
#![tactic(auto)]

ghost use Rattle.std.specs.Prelude.{◌≡◌};
ghost use Rattle.replies.specs.declared.Reply.TheVariants.{Done, Data, Read, Number};
ghost use Rattle.calling.specs.Told.{line_of, lines45 as lines45_of};
ghost use Rattle.calling.specs.After.{shown22, shown25, shown32, shown45, after_of, after22, after25, After32, after45};

use calls::{Call22, Call25, Call32, Call45, Refusal};
use clocks::choose;
use crtc6545::Crtc;
use replies::Reply;
use riot6532::{Io, IoAnswer};
use tpi6525::Tpi;
use via6522::Via;

// What a call leaves of its chip, and its reply. The 6532's RAM is lent beside it.
#[derive(Clone, Copy)]
pub struct After<C> {
    pub chip: C,
    pub reply: Reply,
}

// What the reply to a call is made of, whatever the chip: why it was refused, the line byte, and the byte that was read. All that makes
// or takes one is inlined, for it has a whole record in it.
#[derive(Clone, Copy)]
struct Shown<C> {
    chip: C,
    refusal: Option<Refusal>,
    line: u8,
    data: u8,
}

impl<C: Copy> Shown<C> {
    // A refused call is answered by its refusal alone.
    #[inline(always)]
    fn replied(self, reply: Reply) -> After<C>
        ensures { result ≡ after_of self reply }
    {
        After {
            chip: self.chip,
            reply: match self.refusal {
                None => reply,
                Some(refusal) => Reply::Refused(refusal),
            },
        }
    }

    #[inline(always)]
    fn done(self) -> After<C>
        ensures { result ≡ after_of self (Done self.line) }
    {
        self.replied(Reply::Done(self.line))
    }

    #[inline(always)]
    fn with_data(self) -> After<C>
        ensures { result ≡ after_of self (Data self.line self.«data») }
    {
        self.replied(Reply::Data(self.line, self.data))
    }

    #[inline(always)]
    fn with_mask(self, cleared: u8) -> After<C>
        ensures { result ≡ after_of self (Read self.line self.«data» cleared) }
    {
        self.replied(Reply::Read(self.line, self.data, cleared))
    }

    #[inline(always)]
    fn with_number(self, n: u32) -> After<C>
        ensures { result ≡ after_of self (Number self.line n) }
    {
        self.replied(Reply::Number(self.line, n))
    }
}

fn line(irq: bool) -> u8
    ensures { result ≡ line_of irq }
{
    choose(irq, 1, 0)
}

// Four lines of the 6545 in bits 0 to 3.
fn lines45(answer: crtc6545::Answer) -> u8
    ensures { result ≡ lines45_of answer }
{
    choose(answer.de, 1, 0)
        + choose(answer.hsync, 2, 0)
        + choose(answer.vsync, 4, 0)
        + choose(answer.cursor, 8, 0)
}

impl From<via6522::Answer> for Shown<Via> {
    ghost from_gives = { λ answer shown. shown ≡ shown22 answer };

    #[inline(always)]
    fn from(answer: via6522::Answer) -> Shown<Via> {
        Shown {
            chip: answer.via,
            refusal: answer.refusal,
            line: line(answer.irq),
            data: answer.data,
        }
    }
}

impl From<tpi6525::Answer> for Shown<Tpi> {
    ghost from_gives = { λ answer shown. shown ≡ shown25 answer };

    #[inline(always)]
    fn from(answer: tpi6525::Answer) -> Shown<Tpi> {
        Shown {
            chip: answer.tpi,
            refusal: answer.refusal,
            line: line(answer.irq),
            data: answer.data,
        }
    }
}

impl From<IoAnswer> for Shown<Io> {
    ghost from_gives = { λ answer shown. shown ≡ shown32 answer };

    #[inline(always)]
    fn from(answer: IoAnswer) -> Shown<Io> {
        Shown {
            chip: answer.io,
            refusal: answer.refusal,
            line: line(answer.irq),
            data: answer.data,
        }
    }
}

impl From<crtc6545::Answer> for Shown<Crtc> {
    ghost from_gives = { λ answer shown. shown ≡ shown45 answer };

    #[inline(always)]
    fn from(answer: crtc6545::Answer) -> Shown<Crtc> {
        Shown {
            chip: answer.crtc,
            refusal: answer.refusal,
            line: lines45(answer),
            data: answer.data,
        }
    }
}

// Each chip has calls and entries of its own, and so a function of its own.
#[tactic(auto, using(crate::proofs::Told::foreseen22), unfolding(via6522::specs::Chip::reading_of))]
pub fn on22(via: Via, call: Call22) -> After<Via>
    ensures { result ≡ after22 via call }
{
    match call {
        Call22::Reset => Shown::from(via.reset()).done(),
        Call22::Write(register, value) => Shown::from(via.write(register, value)).done(),
        Call22::Read(register) => {
            let reading = via.read(register);
            Shown::from(reading.answer).with_mask(reading.cleared)
        }
        Call22::Pins(pa, pb, control) => Shown::from(via.pins(pa, pb, control)).done(),
        Call22::Run(n) => Shown::from(via.run(n)).done(),
        Call22::Forecast => {
            let outlook = via.forecast();
            Shown::from(outlook.answer).with_number(outlook.forecast.number())
        }
    }
}

// No mask follows the byte that a read of the 6525 gives.
pub fn on25(tpi: Tpi, call: Call25) -> After<Tpi>
    ensures { result ≡ after25 tpi call }
{
    match call {
        Call25::Reset => Shown::from(tpi.reset()).done(),
        Call25::Write(register, value) => Shown::from(tpi.write(register, value)).done(),
        Call25::Read(register) => Shown::from(tpi.read(register)).with_data(),
        Call25::Pins(pa, pb, pc) => Shown::from(tpi.pins(pa, pb, pc)).done(),
        Call25::Run(n) => Shown::from(tpi.run(n)).done(),
    }
}

#[tactic(auto, using(crate::proofs::Told::foreseen32), unfolding(riot6532::specs::Chip::reading_of))]
pub fn on32(io: Io, ram: &mut [u8; 128], call: Call32) -> After<Io>
    ensures { After32 ram.old ram.new io call result }
{
    match call {
        Call32::Reset => Shown::from(io.reset()).done(),
        Call32::Write(address, value) => Shown::from(io.write(ram, address, value)).done(),
        Call32::Read(address) => {
            let reading = io.read(ram, address);
            Shown::from(reading.answer).with_mask(reading.cleared)
        }
        Call32::Pins(pa, pb) => Shown::from(io.pins(pa, pb)).done(),
        Call32::Run(n) => Shown::from(io.run(n)).done(),
        Call32::Forecast => {
            let outlook = io.forecast();
            Shown::from(outlook.answer).with_number(outlook.forecast.number())
        }
    }
}

// A byte that nothing drives is not shown. The turns of a run are worked out only where they are asked for.
// The reset comes last: as the first arm it takes half as long again, and more (DECISIONS 205).
#[tactic(auto, using(crate::proofs::Told::turned45), unfolding(crtc6545::specs::Chip::reading_of))]
pub fn on45(crtc: Crtc, call: Call45) -> After<Crtc>
    ensures { result ≡ after45 crtc call }
{
    match call {
        Call45::Write(address, value) => Shown::from(crtc.write(address, value)).done(),
        Call45::Read(address) => {
            let reading = crtc.read(address);
            let shown = Shown::from(reading.answer);
            if reading.undriven {
                shown.done()
            } else {
                shown.with_data()
            }
        }
        Call45::Pins(pen) => Shown::from(crtc.pins(pen)).done(),
        Call45::Run(n, counted) => {
            let shown = Shown::from(crtc.run_either(n, counted));
            if counted {
                let turns = longruns::turns(crtc.raster, n);
                shown.with_number((turns % 4294967296) as u32)
            } else {
                shown.done()
            }
        }
        Call45::Reset => Shown::from(crtc.reset()).done(),
    }
}
