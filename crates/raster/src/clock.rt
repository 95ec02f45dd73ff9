// A clock of the line, clocks that end none, and a line end. The registers come beside: what moves the line says nothing of the frame.
ghost use Rattle.std.specs.Prelude.{◌≡◌, ◌+◌, ◌-◌, ◌%◌, ◌<◌, ◌≤◌};
ghost use Rattle.raster.specs.Closed.{along_of};
ghost use Rattle.raster.specs.Clock.{line_clocked, new_frame, adjust_moved, row_ended, frame_moved, vsync_started, line_ended};

use crate::{Frame, Line, Registers};
use clocks::choose;

impl Line {
    // Only R0 itself ends the line, so a column above a lowered R0 runs on to 255.
    #[tactic(auto, unfolding(crate::specs::Clock::line_clocked))]
    pub(crate) fn clocked(self, registers: Registers) -> Line
        ensures { result ≡ line_clocked registers self }
    {
        let column = choose(self.column == registers.r0, 0, self.column.wrapping_add(1));
        Line {
            column,
            hsync: choose(
                column == registers.r2,
                registers.r3 % 16,
                self.hsync.saturating_sub(1),
            ),
        }
    }

    // k clocks that end no line.
    #[tactic(auto, unfolding(crate::specs::Closed::along_of))]
    pub(crate) fn along(self, registers: Registers, k: u8) -> Line
        ensures { result ≡ along_of k registers self }
    {
        let wait = registers.r2.wrapping_sub(self.column);
        let starts = (0 < wait) & (wait <= k);
        let from = choose(starts, registers.r3 % 16, self.hsync);
        let since = choose(starts, k.saturating_sub(wait), k);
        Line {
            column: self.column.wrapping_add(k),
            hsync: from.saturating_sub(since),
        }
    }
}

impl Frame {
    #[tactic(auto, unfolding(crate::specs::Clock::new_frame))]
    pub fn new_frame(self, registers: Registers) -> Frame
        ensures { result ≡ new_frame registers self }
    {
        Frame {
            vsync: self.vsync,
            field: self.field.wrapping_add(1) % 32,
            ..Frame::first(registers.start())
        }
    }

    #[tactic(auto, unfolding(crate::specs::Clock::adjust_moved))]
    fn adjust_moved(mut self, registers: Registers) -> Frame
        ensures { result ≡ adjust_moved registers self }
    {
        let line = self.adjust.wrapping_add(1) % 32;
        if line == registers.r5 {
            return self.new_frame(registers);
        }
        self.adjust = line;
        self
    }

    #[tactic(auto, unfolding(crate::specs::Clock::row_ended, crate::specs::Clock::new_frame))]
    fn row_ended(mut self, registers: Registers) -> Frame
        ensures { result ≡ row_ended registers self }
    {
        self.scan = 0;
        self.row_start = self.row_start.wrapping_add(registers.r1 as u16) % 16384;
        if self.row == registers.r4 {
            if registers.r5 == 0 {
                return self.new_frame(registers);
            }
            self.adjusting = true;
            self.adjust = 0;
            return self;
        }
        self.row = self.row.wrapping_add(1) % 128;
        self
    }

    #[tactic(auto, unfolding(crate::specs::Clock::frame_moved))]
    fn moved(mut self, registers: Registers) -> Frame
        ensures { result ≡ frame_moved registers self }
    {
        if self.adjusting {
            return self.adjust_moved(registers);
        }
        if self.scan == registers.r9 {
            return self.row_ended(registers);
        }
        self.scan = self.scan.wrapping_add(1) % 32;
        self
    }

    #[tactic(auto, unfolding(crate::specs::Clock::vsync_started))]
    fn vsync_started(mut self, registers: Registers) -> Frame
        ensures { result ≡ vsync_started registers self }
    {
        let high = registers.r3 / 16;
        let starts = !self.adjusting & (self.row == registers.r7) & (self.scan == 0);
        self.vsync = choose(starts, choose(high == 0, 16, high), self.vsync);
        self
    }

    #[tactic(auto, unfolding(crate::specs::Clock::line_ended))]
    pub(crate) fn line_ended(mut self, registers: Registers) -> Frame
        ensures { result ≡ line_ended registers self }
    {
        self.vsync = self.vsync.saturating_sub(1);
        self.moved(registers).vsync_started(registers)
    }
}
