// How places are chosen.
ghost use Rattle.std.specs.Prelude.{◌≡◌, ◌≤◌, MatchResult};

use crate::list::Unfit;

// Grams of k codes, and windows of w values.
#[derive(Clone, Copy, PartialEq, Eq, Debug)]
pub struct Winnowing {
    pub k: usize,
    pub w: usize,
    pub ghost gram: { (1 ≤ k) × (k ≤ 64) },
    pub ghost window: { 1 ≤ w },
}

impl Winnowing {
    ghost use Rattle.prints.specs.Listed.{NoWinnowing};

    pub fn new(k: usize, w: usize) -> Result<Winnowing, Unfit>
        ensures { MatchResult result (λ by. (by.k ≡ k) × (by.w ≡ w)) (NoWinnowing k w) }
    {
        if k < 1 || k > 64 {
            return Err(Unfit::Gram);
        }
        if w == 0 {
            return Err(Unfit::Window);
        }
        Ok(Winnowing { k, w })
    }
}
