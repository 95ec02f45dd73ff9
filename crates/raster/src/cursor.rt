// MA, and where the cursor is.
ghost use Rattle.std.specs.Prelude.{◌≡◌};
ghost use Rattle.raster.specs.Signals.{ma_of, blink_of, marked_of};

use crate::{Frame, Line, Registers};
use clocks::bit;

impl Registers {
    #[tactic(auto, unfolding(crate::specs::Signals::ma_of))]
    pub(crate) fn ma(self, line: Line, frame: Frame) -> u16
        ensures { result ≡ ma_of self line frame }
    {
        if bit(2, self.r8) {
            let [high, low] = frame.frame_start.to_be_bytes();
            u16::from_be_bytes([
                high.wrapping_add(frame.row) % 64,
                low.wrapping_add(line.column),
            ])
        } else {
            frame.row_start.wrapping_add(line.column as u16) % 16384
        }
    }

    // Whether the cursor's mode shows it in this field.
    #[tactic(auto, unfolding(crate::specs::Signals::blink_of))]
    fn blink(self, field: u8) -> bool
        ensures { result ≡ blink_of self field }
    {
        match self.r10 / 32 % 4 {
            0 => true,
            1 => false,
            2 => field % 16 < 8,
            _ => field < 16,
        }
    }

    // Whether the cursor is here, DE apart.
    #[tactic(auto, unfolding(crate::specs::Signals::marked_of))]
    pub(crate) fn marked(self, ma: u16, ra: u8, field: u8) -> bool
        ensures { result ≡ marked_of self ma ra field }
    {
        let place = u16::from_be_bytes([self.r14, self.r15]);
        (ma == place) & (self.r10 % 32 <= ra) & (ra <= self.r11) & self.blink(field)
    }
}
