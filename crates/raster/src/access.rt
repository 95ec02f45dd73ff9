// A write of a register.
ghost use Rattle.std.specs.Prelude.{◌≡◌, ◌%◌};
ghost use Rattle.raster.specs.Record.{size_of};
ghost use Rattle.raster.specs.Access.{put as put_of};

use crate::Registers;

// Bits beyond the width of register k drop.
pub(crate) fn fitted(k: u8, value: u8) -> u8
    ensures { result ≡ value % size_of k }
{
    match k {
        4 | 6 | 7 | 10 => value % 128,
        12 | 14 | 18 => value % 64,
        5 | 9 | 11 => value % 32,
        _ => value,
    }
}

impl Registers {
    pub(crate) fn put(mut self, k: u8, x: u8) -> Registers
        ensures { result ≡ put_of k x self }
    {
        match k {
            0 => self.r0 = x,
            1 => self.r1 = x,
            2 => self.r2 = x,
            3 => self.r3 = x,
            4 => self.r4 = x,
            5 => self.r5 = x,
            6 => self.r6 = x,
            7 => self.r7 = x,
            8 => self.r8 = x,
            9 => self.r9 = x,
            10 => self.r10 = x,
            11 => self.r11 = x,
            12 => self.r12 = x,
            13 => self.r13 = x,
            14 => self.r14 = x,
            15 => self.r15 = x,
            18 => self.r18 = x,
            19 => self.r19 = x,
            _ => (),
        }
        self
    }
}
