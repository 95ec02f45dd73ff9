// The 6532: RAM, two ports, an interval timer and an edge detector on PA7. A call takes the record and hands it back inside its answer.
#![tactic(auto)]

ghost use Rattle.std.specs.Prelude.{◌≡◌};
ghost use Rattle.chips.specs.Chips.{answer, Foretold};
ghost use Rattle.riot6532.specs.Record.{power_up};
ghost use Rattle.riot6532.specs.Chip.{chip, clocked, lined, largest_forecast, whole as whole_of, reading_of};

use calls::{Call32, Refusal};
use interval::Timer;
use ports::Port;

mod access;
mod entries;
mod signals;

// The edge detector on PA7: its flag, its enable, and the choice of the rising edge.
#[derive(Clone, Copy, Default)]
pub struct Pa7 {
    pub flag: bool,
    pub enable: bool,
    pub rising: bool,
}

// All but the RAM. It has the entries of the chip too, for callers that hold the RAM beside it.
#[derive(Clone, Copy)]
pub struct Io {
    pub a: Port,
    pub b: Port,
    pub timer: Timer,
    pub pa7: Pa7,
}

#[derive(Clone, Copy)]
pub struct Riot {
    pub ram: [u8; 128],
    pub io: Io,
}

// The answer to a call: what it was refused for, the byte that it read, the lines and the record as it left them.
#[derive(Clone, Copy)]
pub struct Answer {
    pub refusal: Option<Refusal>,
    pub data: u8,
    pub irq: bool,
    pub pa: u8,
    pub pb: u8,
    pub riot: Riot,
}

// The same without the RAM, under a name of its own: what `riot` names has the RAM.
#[derive(Clone, Copy)]
pub struct IoAnswer {
    pub refusal: Option<Refusal>,
    pub data: u8,
    pub irq: bool,
    pub pa: u8,
    pub pb: u8,
    pub io: Io,
}

pub type Reading = chips::Reading<Answer>;

pub type Outlook = chips::Outlook<Answer>;

pub type IoReading = chips::Reading<IoAnswer>;

pub type IoOutlook = chips::Outlook<IoAnswer>;

impl IoAnswer {
    // No From: the RAM comes from beside it.
    fn whole(self, ram: [u8; 128]) -> Answer
        ensures { result ≡ whole_of ram self }
    {
        Answer {
            refusal: self.refusal,
            data: self.data,
            irq: self.irq,
            pa: self.pa,
            pb: self.pb,
            riot: Riot { ram, io: self.io },
        }
    }
}

impl Riot {
    // The largest forecast of a reached record: 255 over 1024, just loaded.
    pub const LARGEST_FORECAST: u32 = 261121;

    // The constant is the number that ForecastBound proves.
    fn largest() -> u32
        ensures { result ≡ largest_forecast }
    {
        Riot::LARGEST_FORECAST
    }

    pub fn power_up() -> Riot
        ensures { result ≡ power_up }
    {
        Riot {
            ram: [0; 128],
            io: Io {
                a: Port::power_up(),
                b: Port::power_up(),
                timer: Timer::power_up(),
                pa7: Pa7::default(),
            },
        }
    }

    pub fn reset(self) -> Answer
        ensures { result ≡ answer chip Call32.Reset self }
    {
        self.io.reset().whole(self.ram)
    }

    // In what it cleared the timer's flag is bit 7, PA7's bit 6.
    pub fn read(self, address: u8) -> Reading
        ensures { result ≡ reading_of address self }
    {
        let IoReading { cleared, answer } = self.io.read(&self.ram, address);
        Reading {
            cleared,
            answer: answer.whole(self.ram),
        }
    }

    pub fn write(self, address: u8, value: u8) -> Answer
        ensures { result ≡ answer chip (Call32.Write address value) self }
    {
        let mut ram = self.ram;
        self.io.write(&mut ram, address, value).whole(ram)
    }

    pub fn pins(self, pa: u8, pb: u8) -> Answer
        ensures { result ≡ answer chip (Call32.Pins pa pb) self }
    {
        self.io.pins(pa, pb).whole(self.ram)
    }

    pub fn clock(self) -> Answer
        ensures { result ≡ answer chip (Call32.Run 1) self }
    {
        self.io.clock().whole(self.ram)
    }

    // n clocks, in a number of steps that does not grow with n.
    pub fn run(self, n: u32) -> Answer
        ensures { result ≡ answer chip (Call32.Run n) self }
    {
        self.io.run(n).whole(self.ram)
    }

    pub fn forecast(self) -> Outlook
        ensures { Foretold chip clocked lined self result.forecast result.answer }
    {
        let IoOutlook { forecast, answer } = self.io.forecast();
        Outlook {
            forecast,
            answer: answer.whole(self.ram),
        }
    }
}
