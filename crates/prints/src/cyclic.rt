// The cyclic shift hash.
ghost use Rattle.std.specs.Prelude.{◌≡◌};
ghost use Rattle.prints.specs.Hashes.{rotated, cyclic};

use crate::hash::GramHash;
use crate::table::spread_of;

// Rotated left by n in 32 bits.
fn rotated_by(x: u32, n: usize) -> u32
    ensures { result ≡ rotated n x }
{
    x.rotate_left((n % 32) as u32)
}

// The spread number of each code, rotated left by the number of codes behind it, all joined by exclusive or; ordered as numbers.
pub struct CyclicShift;

impl GramHash for CyclicShift {
    type Value = u32;

    ghost value = { cyclic };

    fn of(codes: &[u16]) -> u32 {
        codes
            .iter()
            .fold(0, |sum, c| rotated_by(sum, 1) ^ spread_of(*c))
    }

    fn roll(before: u32, k: usize, out: u16, next: u16) -> u32 {
        rotated_by(before, 1) ^ rotated_by(spread_of(out), k) ^ spread_of(next)
    }
}
