// Where line ends bring a frame, VSYNC apart: its counters by division.
ghost use Rattle.std.specs.Prelude.{◌≡◌, ◌+◌, ◌*◌, ◌%◌, ◌<◌, ◌≤◌};
ghost use Rattle.clocks.specs.Clocks.{after};
ghost use Rattle.raster.specs.Clock.{frame_moved};
ghost use Rattle.longruns.specs.Closed.{Counters, rows_after, ends_before, in_adjust, rows_left, LeftFits, at_row, place_of, frame_on};

use raster::{Frame, Registers};

// A frame and the registers that its counters are held against, all in the ranges without which no division places it.
#[derive(Clone, Copy)]
pub(crate) struct Place {
    pub(crate) registers: Registers,
    pub(crate) frame: Frame,
    ghost counters: { Counters registers frame },
}

impl Place {
    // The lines of so many rows.
    fn lines(self, rows: u32) -> u32
        requires { rows < 128 }
        ensures { (result ≡ rows * (self.registers.r9 + 1)) × (result ≤ 4064) }
    {
        rows * (self.registers.r9 as u32 + 1)
    }

    // The rows after this one.
    #[tactic(auto, unfolding(crate::specs::Closed::rows_after))]
    fn rows_after(self) -> u32
        ensures { (result ≡ rows_after self.registers self.frame) × (result < 128) }
    {
        (self.registers.r4 as u32 + 128 - self.frame.row as u32) % 128
    }

    // The line ends before the one that starts a new frame.
    #[tactic(auto, unfolding(crate::specs::Closed::ends_before))]
    fn ends_before(self) -> u32
        ensures { (result ≡ ends_before self.registers self.frame) × (result ≤ 4126) }
    {
        let adjusts = self.registers.r5 as u32;
        if self.frame.adjusting {
            return (adjusts + 31 - self.frame.adjust as u32) % 32;
        }
        let scans = (self.registers.r9 as u32 + 32 - self.frame.scan as u32) % 32;
        scans + self.lines(self.rows_after()) + adjusts
    }

    // The start of a row, so many rows on.
    fn row_start(self, rows: u32) -> u16
        requires { rows ≤ 128 }
        ensures { result ≡ (self.frame.row_start + self.registers.r1 * rows) % 16384 }
    {
        ((self.frame.row_start as u32 + self.registers.r1 as u32 * rows) % 16384) as u16
    }

    // The rows that are still to come, x line ends before the one that ends the last row. A first row that was entered above R9 has more
    // lines than the others, and counts as one row all the same.
    fn rows_left(self, x: u32) -> u32
        requires { x ≤ 31 + rows_after self.registers self.frame * (self.registers.r9 + 1) }
        ensures { (result ≡ rows_left self.registers self.frame x) × (result < 128) × LeftFits self.registers self.frame x result }
    {
        let whole = x / (self.registers.r9 as u32 + 1);
        self.rows_after().min(whole)
    }

    // The frame in a row, x line ends before the one that ends the last row.
    #[tactic(auto, unfolding(crate::specs::Closed::in_row))]
    fn at_row(self, x: u32) -> Frame
        requires { x ≤ 31 + rows_after self.registers self.frame * (self.registers.r9 + 1) }
        ensures { result ≡ at_row self.registers self.frame x }
    {
        let left = self.rows_left(x);
        let scans = x - self.lines(left);
        Frame {
            row: ((self.registers.r4 as u32 + 128 - left) % 128) as u8,
            scan: ((self.registers.r9 as u32 + 32 - scans) % 32) as u8,
            adjusting: false,
            row_start: self.row_start(self.rows_after() - left),
            ..self.frame
        }
    }

    // The frame at an adjust line, all its rows done.
    #[tactic(auto, unfolding(crate::specs::Closed::in_adjust))]
    fn in_adjust(self, line: u8) -> Frame
        ensures { result ≡ in_adjust self.registers self.frame line }
    {
        Frame {
            row: self.registers.r4,
            scan: 0,
            adjusting: true,
            adjust: line,
            row_start: self.row_start(self.rows_after() + 1),
            ..self.frame
        }
    }

    // The frame k line ends before the one that starts a new frame.
    #[tactic(auto, unfolding(crate::specs::Closed::place_of, crate::specs::Closed::ends_before))]
    fn back(self, k: u32) -> Frame
        requires { k ≤ ends_before self.registers self.frame }
        ensures { result ≡ place_of self.registers self.frame k }
    {
        let adjusts = self.registers.r5 as u32;
        if self.frame.adjusting {
            return Frame {
                adjust: ((adjusts + 31 - k) % 32) as u8,
                ..self.frame
            };
        }
        if k < adjusts {
            return self.in_adjust((adjusts - 1 - k) as u8);
        }
        self.at_row(k - adjusts)
    }

    // The first line of the frame that comes so many frames after the next.
    #[tactic(auto, unfolding(crate::specs::Closed::frame_on))]
    fn frame_on(self, frames: u32) -> Place
        ensures { (result.registers ≡ self.registers) × (result.frame ≡ frame_on self.registers self.frame frames) }
    {
        let registers = self.registers;
        let mut frame = self.frame.new_frame(registers);
        frame.field = ((frame.field as u32 + frames % 32) % 32) as u8;
        Place { registers, frame }
    }

    // The frame n line ends on, but for VSYNC, which stays.
    pub(crate) fn placed(self, n: u32) -> Frame
        ensures { result ≡ after n (frame_moved self.registers) self.frame }
    {
        let first = self.ends_before();
        if n <= first {
            return self.back(first - n);
        }
        let past = n - first - 1;
        let last = self.frame_on(0).ends_before();
        self.frame_on(past / (last + 1))
            .back(last - past % (last + 1))
    }
}
