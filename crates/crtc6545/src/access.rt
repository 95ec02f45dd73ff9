// What a read gives, and which writes are refused.
ghost use Rattle.std.specs.Prelude.{◌≡◌};
ghost use Rattle.crtc6545.specs.Access.{write_asks, status_of, register_of, data_of};

use crate::Crtc;
use calls::Refusal;
use clocks::choose;
use raster::allowed_r8;

impl Crtc {
    pub(crate) fn write_asks(self, address: u8, value: u8) -> Option<Refusal>
        ensures { result ≡ write_asks address value self }
    {
        if 1 < address {
            return Some(Refusal::NoRegister);
        }
        let form = (address == 1) & (self.address == 8) & !allowed_r8(value);
        form.then_some(Refusal::LeftOut)
    }

    #[tactic(auto, unfolding(crate::specs::Access::status_of))]
    fn status(self) -> u8
        ensures { result ≡ status_of self }
    {
        choose(self.light.full, 64, 0) + choose(self.raster.signals().blanking, 32, 0)
    }

    #[tactic(auto, unfolding(crate::specs::Access::register_of))]
    fn register(self) -> u8
        ensures { result ≡ register_of self.address self }
    {
        match self.address {
            14 => self.raster.registers.r14,
            15 => self.raster.registers.r15,
            16 => self.light.r16,
            17 => self.light.r17,
            _ => 0,
        }
    }

    // What a read gives, of the record before it.
    pub(crate) fn data(self, address: u8) -> u8
        ensures { result ≡ data_of address self }
    {
        if address == 0 {
            self.status()
        } else {
            self.register()
        }
    }
}
