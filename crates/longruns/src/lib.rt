// Long runs of a raster: all but the last lines by division.
#![tactic(auto)]

ghost use Rattle.std.specs.Prelude.{◌≡◌, ◌+◌, ◌*◌, ◌<◌, true, ◌&&◌, nat_lt};
ghost use Rattle.clocks.specs.Clocks.{after};
ghost use Rattle.raster.specs.Record.{well_raster};
ghost use Rattle.raster.specs.Clock.{raster_clocked};
ghost use Rattle.raster.specs.Closed.{gap};
ghost use Rattle.longruns.specs.Ends.{ends_of, turns_of};
ghost use Rattle.longruns.specs.Closed.{leapt_of};

use place::Place;
use raster::{Line, Raster};

mod place;

// The clocks before the one that ends the line.
fn ahead(raster: Raster) -> u32
    ensures { (result ≡ gap raster.line.column raster.registers.r0) × (result < 256) }
{
    raster.registers.r0.wrapping_sub(raster.line.column) as u32
}

// Whether to leap: below 20 lines it does not pay, and counters that are out of their ranges cannot be placed.
fn far(raster: Raster, n: u32) -> bool
    ensures { result ≡ (nat_lt (gap raster.line.column raster.registers.r0 + 20 * (raster.registers.r0 + 1)) n && well_raster raster) }
{
    ahead(raster) + 20 * (raster.registers.r0 as u32 + 1) < n && raster.well()
}

// The start of a line, `skipped` line ends on, with no HSYNC, and VSYNC as it was.
fn leapt(mut raster: Raster, skipped: u32) -> Raster
    requires { well_raster raster ≡ true }
    ensures { result ≡ leapt_of skipped raster }
{
    let place = Place {
        registers: raster.registers,
        frame: raster.frame,
    };
    raster.line = Line::default();
    raster.frame = place.placed(skipped);
    raster
}

// n clocks; of a well-formed raster in a number of steps that does not grow with n, of any other a line at a time. After a leap at least
// sixteen lines are run, and neither HSYNC nor VSYNC lasts longer than that: both come right in them.
pub fn run(mut raster: Raster, n: u32) -> Raster
    ensures { result ≡ after n raster_clocked raster }
{
    let mut left = n;
    if far(raster, n) {
        let width = raster.registers.r0 as u32 + 1;
        let past = n - ahead(raster) - 1;
        raster = leapt(raster, past / width - 15);
        left = past % width + 16 * width;
    }
    raster.run(left)
}

// The line ends that n clocks pass: one at the end of this line, and one each R0 + 1 clocks after it.
pub fn ends(raster: Raster, n: u32) -> u32
    ensures { result ≡ ends_of n raster }
{
    let first = ahead(raster);
    if first < n {
        (n - first - 1) / (raster.registers.r0 as u32 + 1) + 1
    } else {
        0
    }
}

// With R0 at 0 the longest run has 4,294,967,296 of them.
#[tactic(auto, unfolding(crate::specs::Ends::turns_of))]
pub fn turns(raster: Raster, n: u32) -> u64
    ensures { result ≡ turns_of n raster }
{
    if n == 0 {
        return 0;
    }
    ends(raster, n) as u64 + 1
}
