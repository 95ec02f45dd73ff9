// Reads and writes of everything but the RAM, by the bits of the address.
ghost use Rattle.std.specs.Prelude.{◌≡◌, ◌%◌};
ghost use Rattle.riot6532.specs.Access.{port_written, io_written, port_data, flags_of, io_data, io_read};

use crate::Io;
use clocks::{bit, with_mask};
use interval::Timer;

impl Io {
    fn port_written(mut self, k: u8, value: u8) -> Io
        ensures { result ≡ port_written k value self }
    {
        match k {
            0 => self.a.output = value,
            1 => self.a.ddr = value,
            2 => self.b.output = value,
            3 => self.b.ddr = value,
            _ => (),
        }
        self
    }

    #[tactic(auto, unfolding(crate::specs::Access::io_written))]
    pub(crate) fn written(mut self, address: u8, value: u8) -> Io
        ensures { result ≡ io_written address value self }
    {
        if !bit(2, address) {
            return self.port_written(address % 4, value);
        }
        if bit(4, address) {
            self.timer = Timer::load(address % 4, value, bit(3, address));
            return self;
        }
        self.pa7.enable = bit(1, address);
        self.pa7.rising = bit(0, address);
        self
    }

    fn port_data(self, k: u8) -> u8
        ensures { result ≡ port_data k self }
    {
        match k {
            0 => self.a.lines(),
            1 => self.a.ddr,
            2 => self.b.lines(),
            _ => self.b.ddr,
        }
    }

    #[tactic(auto, unfolding(crate::specs::Access::flags_of, clocks::specs::Bits::with_bit))]
    pub(crate) fn flags(self) -> u8
        ensures { result ≡ flags_of self }
    {
        with_mask(128, self.timer.flag, with_mask(64, self.pa7.flag, 0))
    }

    // What a read gives, of the record before it.
    #[tactic(auto, unfolding(crate::specs::Access::io_data))]
    pub(crate) fn data(self, address: u8) -> u8
        ensures { result ≡ io_data address self }
    {
        if !bit(2, address) {
            return self.port_data(address % 4);
        }
        if bit(0, address) {
            self.flags()
        } else {
            self.timer.value
        }
    }

    // What a read leaves.
    #[tactic(auto, unfolding(crate::specs::Access::io_read))]
    pub(crate) fn after_read(mut self, address: u8) -> Io
        ensures { result ≡ io_read address self }
    {
        if !bit(2, address) {
            return self;
        }
        if bit(0, address) {
            self.pa7.flag = false;
            return self;
        }
        self.timer.flag = false;
        self.timer.enable = bit(3, address);
        self
    }
}
