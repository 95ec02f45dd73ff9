// The 6545: the raster of the screen, its lines as R8 shows them, and the light pen. A call takes the record and hands it back inside its answer.
#![tactic(auto)]

ghost use Rattle.std.specs.Prelude.{◌≡◌, true, false, Some, if◌then◌else◌};
ghost use Rattle.chips.specs.Chips.{answer};
ghost use Rattle.crtc6545.specs.Record.{well_formed, power_up};
ghost use Rattle.crtc6545.specs.Chip.{chip, accepted as accepted_of, refused as refused_of, reading_of, with_turns, running_of};

use calls::{Call45, Refusal};
use clocks::{bit, choose};
use raster::Raster;

mod access;
mod clock;

// The light pen: where it was seen, whether that is new, its level, and a strobe that waits for a clock.
#[derive(Clone, Copy, Default)]
pub struct Light {
    pub r16: u8,
    pub r17: u8,
    pub full: bool,
    pub pen: bool,
    pub waiting: bool,
}

// DE and CURSOR of the clock before.
#[derive(Clone, Copy, Default)]
pub struct Kept {
    pub de: bool,
    pub cursor: bool,
}

#[derive(Clone, Copy, Default)]
pub struct Crtc {
    pub raster: Raster,
    pub address: u8,
    pub light: Light,
    pub kept: Kept,
}

// The answer to a call: what it was refused for, the byte that it read, the lines and the record as it left them.
#[derive(Clone, Copy, Default)]
pub struct Answer {
    pub refusal: Option<Refusal>,
    pub data: u8,
    pub de: bool,
    pub hsync: bool,
    pub vsync: bool,
    pub cursor: bool,
    pub ma: u16,
    pub ra: u8,
    pub crtc: Crtc,
}

// What a read gives back: the mark says that nothing drove the data, which the answer has as 0, as it promises of every call.
#[derive(Clone, Copy)]
pub struct Reading {
    pub undriven: bool,
    pub answer: Answer,
}

// What a run gives back: its turns are the line ends that it passed and one more, and 0 where it is refused or has no clock.
#[derive(Clone, Copy)]
pub struct Running {
    pub turns: u64,
    pub answer: Answer,
}

impl Crtc {
    // The most clocks of a run whose turns are asked for, and have to fit 32 bits.
    pub const LONGEST_COUNTED: u32 = 4294967290;

    #[tactic(auto, unfolding(crate::specs::Record::power_up))]
    pub fn power_up() -> Crtc
        ensures { result ≡ power_up }
    {
        Crtc {
            raster: Raster::power_up(),
            ..Crtc::default()
        }
    }

    // Every entry ends here. Inlined, because a call that hands on a whole record is slow.
    #[inline(always)]
    #[tactic(auto, unfolding(crate::specs::Chip::accepted))]
    fn accepted(self, data: u8) -> Answer
        ensures { result ≡ accepted_of «data» self }
    {
        let r8 = self.raster.registers.r8;
        let signals = self.raster.signals();
        Answer {
            refusal: None,
            data,
            de: choose(bit(4, r8), self.kept.de, signals.de),
            hsync: 0 < self.raster.line.hsync,
            vsync: 0 < self.raster.frame.vsync,
            cursor: choose(bit(5, r8), self.kept.cursor, signals.cursor),
            ma: signals.ma,
            ra: signals.ra,
            crtc: self,
        }
    }

    #[tactic(auto, unfolding(crate::specs::Chip::refused))]
    fn refused(self, refusal: Refusal) -> Answer
        ensures { result ≡ refused_of refusal self }
    {
        Answer {
            refusal: Some(refusal),
            crtc: self,
            ..Answer::default()
        }
    }

    // The first refusal that applies, `asked` being that of the operands.
    #[tactic(auto, unfolding(crate::specs::Record::well_formed, clocks::specs::Ranges::within))]
    fn refusal(self, asked: Option<Refusal>) -> Option<Refusal>
        ensures { result ≡ (if well_formed self then asked else Some Refusal.IllFormed) }
    {
        let well = self.raster.well() & (self.light.r16 < 64) & (self.address < 32);
        choose(well, asked, Some(Refusal::IllFormed))
    }

    #[tactic(auto, unfolding(chips::specs::Chips::answer, crate::specs::Record::reset_of))]
    pub fn reset(mut self) -> Answer
        ensures { result ≡ answer chip Call45.Reset self }
    {
        if let Some(refusal) = self.refusal(None) {
            return self.refused(refusal);
        }
        self.raster = self.raster.restarted();
        self.light.waiting = false;
        self.kept = Kept::default();
        self.accepted(0)
    }

    #[tactic(auto, unfolding(chips::specs::Chips::answer, crate::specs::Chip::reading_of, crate::specs::Access::read_of))]
    pub fn read(mut self, address: u8) -> Reading
        ensures { result ≡ reading_of address self }
    {
        let asked = (1 < address).then_some(Refusal::NoRegister);
        if let Some(refusal) = self.refusal(asked) {
            return Reading {
                undriven: false,
                answer: self.refused(refusal),
            };
        }
        let k = self.address;
        let data = self.data(address);
        self.light.full = self.light.full & !((address == 1) & ((k == 16) | (k == 17)));
        Reading {
            undriven: (address == 1) & (k == 31),
            answer: self.accepted(data),
        }
    }

    #[tactic(auto, unfolding(chips::specs::Chips::answer, crate::specs::Access::write_of))]
    pub fn write(mut self, address: u8, value: u8) -> Answer
        ensures { result ≡ answer chip (Call45.Write address value) self }
    {
        if let Some(refusal) = self.refusal(self.write_asks(address, value)) {
            return self.refused(refusal);
        }
        if address == 0 {
            self.address = value % 32;
        } else {
            self.raster = self.raster.stored(self.address, value);
        }
        self.accepted(0)
    }

    #[tactic(auto, unfolding(chips::specs::Chips::answer, crate::specs::Pins::pins_of))]
    pub fn pins(mut self, pen: u8) -> Answer
        ensures { result ≡ answer chip (Call45.Pins pen) self }
    {
        let asked = (1 < pen).then_some(Refusal::NoLevel);
        if let Some(refusal) = self.refusal(asked) {
            return self.refused(refusal);
        }
        let level = pen == 1;
        self.light.waiting = self.light.waiting | (!self.light.pen & level);
        self.light.pen = level;
        self.accepted(0)
    }

    pub fn clock(self) -> Answer
        ensures { result ≡ answer chip (Call45.Run 1 false) self }
    {
        self.run_either(1, false)
    }

    #[tactic(auto, unfolding(crate::specs::Chip::running_of))]
    pub fn run(self, n: u32) -> Running
        ensures { result ≡ running_of n false self }
    {
        self.running(n, self.run_either(n, false))
    }

    // A run whose turns have to fit 32 bits: above LONGEST_COUNTED clocks it is refused as too long.
    #[tactic(auto, unfolding(crate::specs::Chip::running_of))]
    pub fn turns(self, n: u32) -> Running
        ensures { result ≡ running_of n true self }
    {
        self.running(n, self.run_either(n, true))
    }

    // The answer to either run, for a caller that has the mark. There is one call of `ran`, so that it is compiled into the loop over lines.
    #[tactic(auto, unfolding(chips::specs::Chips::answer))]
    pub fn run_either(self, n: u32, counted: bool) -> Answer
        ensures { result ≡ answer chip (Call45.Run n counted) self }
    {
        let long = counted & (Crtc::LONGEST_COUNTED < n);
        let asked = long.then_some(Refusal::TooLong);
        if let Some(refusal) = self.refusal(asked) {
            return self.refused(refusal);
        }
        self.ran(n).accepted(0)
    }

    fn running(self, n: u32, answer: Answer) -> Running
        ensures { result ≡ with_turns n self «answer» }
    {
        let turns = match answer.refusal {
            None => longruns::turns(self.raster, n),
            Some(_) => 0,
        };
        Running { turns, answer }
    }
}
