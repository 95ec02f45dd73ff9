// The 6545's raster: the registers that a write reaches, the line and the frame, what clocks do to them and which signals they give.
#![tactic(auto)]

ghost use Rattle.std.specs.Prelude.{◌≡◌};
ghost use Rattle.clocks.specs.Clocks.{after};
ghost use Rattle.raster.specs.Record.{allowed_r8, well_raster, raster_up, restarted as restarted_of};
ghost use Rattle.raster.specs.Access.{stored as stored_of};
ghost use Rattle.raster.specs.Clock.{raster_clocked};
ghost use Rattle.raster.specs.Signals.{signals_of};

use clocks::{bit, choose};

mod access;
mod clock;
mod cursor;
mod record;

// R16 and R17 are the light pen's, so no clock changes these.
#[derive(Clone, Copy, Default)]
pub struct Registers {
    pub r0: u8,
    pub r1: u8,
    pub r2: u8,
    pub r3: u8,
    pub r4: u8,
    pub r5: u8,
    pub r6: u8,
    pub r7: u8,
    pub r8: u8,
    pub r9: u8,
    pub r10: u8,
    pub r11: u8,
    pub r12: u8,
    pub r13: u8,
    pub r14: u8,
    pub r15: u8,
    pub r18: u8,
    pub r19: u8,
}

// What every clock moves: the column, and the clocks that HSYNC has left.
#[derive(Clone, Copy, Default)]
pub struct Line {
    pub column: u8,
    pub hsync: u8,
}

// What only a line end moves; `vsync` is the lines that VSYNC has left.
#[derive(Clone, Copy, Default)]
pub struct Frame {
    pub row: u8,
    pub scan: u8,
    pub adjusting: bool,
    pub adjust: u8,
    pub row_start: u16,
    pub frame_start: u16,
    pub vsync: u8,
    pub field: u8,
}

#[derive(Clone, Copy, Default)]
pub struct Raster {
    pub registers: Registers,
    pub line: Line,
    pub frame: Frame,
}

// What a raster gives as it is, before R8 shows DE or CURSOR a clock late.
#[derive(Clone, Copy)]
pub struct Signals {
    pub de: bool,
    pub cursor: bool,
    pub ma: u16,
    pub ra: u8,
    pub blanking: bool,
}

// Whether R8 can take the value: interlace and transparent addressing are not built.
pub fn allowed_r8(x: u8) -> bool
    ensures { result ≡ allowed_r8 x }
{
    !(bit(0, x) | bit(1, x) | bit(3, x) | bit(6, x) | bit(7, x))
}

impl Raster {
    #[tactic(auto, unfolding(crate::specs::Record::raster_up))]
    pub fn power_up() -> Raster
        ensures { result ≡ raster_up }
    {
        Raster::default()
    }

    #[tactic(auto, unfolding(crate::specs::Record::well_raster, crate::specs::Record::well_line, clocks::specs::Ranges::within))]
    pub fn well(self) -> bool
        ensures { result ≡ well_raster self }
    {
        self.registers.well() & (self.line.hsync < 16) & self.frame.well()
    }

    // A write of register k.
    #[tactic(auto, unfolding(crate::specs::Access::stored))]
    pub fn stored(mut self, k: u8, value: u8) -> Raster
        ensures { result ≡ stored_of k value self }
    {
        self.registers = self.registers.put(k, access::fitted(k, value));
        self
    }

    // What a reset does: the first line of a frame at the start that the registers hold.
    #[tactic(auto, unfolding(crate::specs::Record::restarted))]
    pub fn restarted(mut self) -> Raster
        ensures { result ≡ restarted_of self }
    {
        self.line = Line::default();
        self.frame = Frame::first(self.registers.start());
        self
    }

    // Inlined, as a call that hands on a whole record is slow.
    #[inline(always)]
    #[tactic(auto, unfolding(crate::specs::Clock::raster_clocked))]
    pub fn clocked(mut self) -> Raster
        ensures { result ≡ raster_clocked self }
    {
        if self.line.column == self.registers.r0 {
            self.frame = self.frame.line_ended(self.registers);
        }
        self.line = self.line.clocked(self.registers);
        self
    }

    // n clocks, a line at a time: `ahead` is how many come before the one that ends the line.
    pub fn run(mut self, n: u32) -> Raster
        ensures { result ≡ after n raster_clocked self }
    {
        // The first line is shorter than the others, so the lines are not counted before.
        let mut left = n;
        let mut ahead = self.registers.r0.wrapping_sub(self.line.column);
        while (ahead as u32) < left {
            let last = self.line.along(self.registers, ahead);
            self.line = last.clocked(self.registers);
            self.frame = self.frame.line_ended(self.registers);
            left = left - ahead as u32 - 1;
            ahead = self.registers.r0;
        }
        self.line = self.line.along(self.registers, left as u8);
        self
    }

    #[tactic(auto, unfolding(crate::specs::Signals::signals_of))]
    pub fn signals(self) -> Signals
        ensures { result ≡ signals_of self }
    {
        let Raster {
            registers,
            line,
            frame,
        } = self;
        let ma = registers.ma(line, frame);
        let ra = choose(frame.adjusting, frame.adjust, frame.scan);
        let blanking = (registers.r6 <= frame.row) | frame.adjusting;
        let de = !blanking & (line.column < registers.r1);
        Signals {
            de,
            cursor: de & registers.marked(ma, ra, frame.field),
            ma,
            ra,
            blanking,
        }
    }
}
