// The flags of the 6522: what sets, clears, enables and shows them. IFR and IER have a flag and its enable in each of seven bits: 0 CA2,
// 1 CA1, 2 SR, 3 CB2, 4 CB1, 5 T2, 6 T1. Control levels are in bits 0 to 3: CA1, CA2, CB1, CB2.
#![tactic(auto, unfolding(crate::specs::Flags::raised, crate::specs::Flags::keeps, crate::specs::Flags::access_clears, crate::specs::Flags::read_clears, crate::specs::Flags::write_clears, crate::specs::Flags::shown, crate::specs::Flags::enabled, clocks::specs::Bits::with_bit))]

ghost use Rattle.std.specs.Prelude.{◌≡◌};
ghost use Rattle.clocks.specs.Bits.{bit as bit_of};
ghost use Rattle.ports.specs.Ports.{edge as edge_of};
ghost use Rattle.flags.specs.Flags.{of_side, code as code_of, allowed_code, allowed_pcr, edge1, edge2, set as set_of, raised_at, raised as raised_of, keeps as keeps_of, independent as independent_of, side_clears, access_clears, read_clears, write_clears, shown as shown_of, enabled as enabled_of};

use clocks::{bit, choose, with_mask};
use ports::edge;

// A port with its two control lines: CA1 and CA2, or CB1 and CB2.
#[derive(Clone, Copy)]
pub enum Side {
    A,
    B,
}

impl Side {
    fn pick(self, a: u8, b: u8) -> u8
        ensures { result ≡ of_side self a b }
    {
        match self {
            Side::A => a,
            Side::B => b,
        }
    }

    // PCR's code for line 2.
    fn code(self, pcr: u8) -> u8
        ensures { result ≡ code_of self pcr }
    {
        pcr / self.pick(2, 32) % 8
    }

    // The flags that an access to the port clears.
    fn clears(self, pcr: u8) -> u8
        ensures { result ≡ side_clears self pcr }
    {
        let alone = independent(self.code(pcr));
        choose(alone, self.pick(2, 16), self.pick(3, 24))
    }
}

// New control levels after old ones, and PCR, which says which of them are edges.
#[derive(Clone, Copy)]
pub struct Edges {
    pub pcr: u8,
    pub old: u8,
    pub new: u8,
}

impl Edges {
    // Whether the level k made an edge.
    fn on(self, k: u8, rising: bool) -> bool
        ensures { result ≡ edge_of rising (bit_of k self.old) (bit_of k self.new) }
    {
        edge(rising, bit(k, self.old), bit(k, self.new))
    }

    fn line1(self, side: Side) -> bool
        ensures { result ≡ edge1 side self.pcr self.old self.new }
    {
        let rising = bit(side.pick(0, 4), self.pcr);
        self.on(side.pick(0, 2), rising)
    }

    // The output codes see none.
    fn line2(self, side: Side) -> bool
        ensures { result ≡ edge2 side self.pcr self.old self.new }
    {
        let code = side.code(self.pcr);
        (code < 4) & self.on(side.pick(1, 3), 1 < code)
    }

    // IFR after the edges of one side.
    fn raised_at(self, side: Side, ifr: u8) -> u8
        ensures { result ≡ raised_at side self.pcr self.old self.new ifr }
    {
        let first = set(side.pick(2, 16), self.line1(side), ifr);
        set(side.pick(1, 8), self.line2(side), first)
    }

    // IFR after the edges of the four control lines.
    pub fn raised(self, ifr: u8) -> u8
        ensures { result ≡ raised_of self.pcr self.old self.new ifr }
    {
        self.raised_at(Side::A, self.raised_at(Side::B, ifr))
    }

    // Whether the port's new lines are kept.
    pub fn keeps(self, side: Side, ifr: u8) -> bool
        ensures { result ≡ keeps_of side self.pcr self.old self.new ifr }
    {
        self.line1(side) & !bit(side.pick(1, 4), ifr)
    }
}

// A code stays the three bits that PCR has: any byte may be written there.
fn allowed_code(code: u8) -> bool
    ensures { result ≡ allowed_code code }
{
    (code != 4) & (code != 5)
}

// Whether PCR selects no handshake or pulse output.
pub fn allowed_pcr(pcr: u8) -> bool
    ensures { result ≡ allowed_pcr pcr }
{
    allowed_code(Side::A.code(pcr)) & allowed_code(Side::B.code(pcr))
}

fn set(mask: u8, edge: bool, ifr: u8) -> u8
    ensures { result ≡ set_of mask edge ifr }
{
    choose(edge, with_mask(mask, true, ifr), ifr)
}

// Whether a code keeps line 2's flag apart from the port.
fn independent(code: u8) -> bool
    ensures { result ≡ independent_of code }
{
    (code == 1) | (code == 3)
}

// The flags that any access clears.
fn access_clears(register: u8, pcr: u8) -> u8
    ensures { result ≡ access_clears register pcr }
{
    match register {
        0 => Side::B.clears(pcr),
        1 => Side::A.clears(pcr),
        10 => 4,
        _ => 0,
    }
}

// A read of a timer's low byte clears its flag, one of the high byte does not.
pub fn read_clears(register: u8, pcr: u8) -> u8
    ensures { result ≡ read_clears register pcr }
{
    match register {
        4 => 64,
        5 => 0,
        8 => 32,
        9 => 0,
        _ => access_clears(register, pcr),
    }
}

// A write of T1's high latch clears its flag, one of a low latch does not.
pub fn write_clears(register: u8, value: u8, pcr: u8) -> u8
    ensures { result ≡ write_clears register value pcr }
{
    match register {
        5 => 64,
        6 => 0,
        7 => 64,
        8 => 0,
        9 => 32,
        13 => value % 128,
        _ => access_clears(register, pcr),
    }
}

// IFR as a read shows it, the interrupt in bit 7.
pub fn shown(ifr: u8, ier: u8) -> u8
    ensures { result ≡ shown_of ifr ier }
{
    with_mask(128, clocks::shares(ifr, ier), ifr)
}

// IER after a write.
pub fn enabled(value: u8, ier: u8) -> u8
    ensures { result ≡ enabled_of value ier }
{
    with_mask(value % 128, bit(7, value), ier)
}
