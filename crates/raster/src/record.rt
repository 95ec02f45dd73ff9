// Which rasters are well formed, and what power-up and a reset start from.
ghost use Rattle.std.specs.Prelude.{◌≡◌};
ghost use Rattle.raster.specs.Record.{start_of, well_registers, well_frame, first_frame};

use crate::{Frame, Registers, allowed_r8};

impl Registers {
    // Where a frame starts.
    pub(crate) fn start(self) -> u16
        ensures { result ≡ start_of self }
    {
        u16::from_be_bytes([self.r12, self.r13])
    }

    // A byte is in the range of a register of 8 bits by itself.
    #[tactic(auto, unfolding(crate::specs::Record::well_registers, clocks::specs::Ranges::within))]
    pub(crate) fn well(self) -> bool
        ensures { result ≡ well_registers self }
    {
        (self.r4 < 128)
            & (self.r5 < 32)
            & (self.r6 < 128)
            & (self.r7 < 128)
            & (self.r9 < 32)
            & (self.r10 < 128)
            & (self.r11 < 32)
            & (self.r12 < 64)
            & (self.r14 < 64)
            & (self.r18 < 64)
            & allowed_r8(self.r8)
    }
}

impl Frame {
    // The first line of a frame at `start`, no VSYNC running.
    pub(crate) fn first(start: u16) -> Frame
        ensures { result ≡ first_frame start }
    {
        Frame {
            row_start: start,
            frame_start: start,
            ..Frame::default()
        }
    }

    #[tactic(auto, unfolding(crate::specs::Record::well_frame, clocks::specs::Ranges::within))]
    pub(crate) fn well(self) -> bool
        ensures { result ≡ well_frame self }
    {
        (self.row < 128)
            & (self.scan < 32)
            & (self.adjust < 32)
            & (self.row_start < 16384)
            & (self.frame_start < 16384)
            & (self.vsync < 17)
            & (self.field < 32)
    }
}
