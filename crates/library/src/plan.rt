// What a library is opened with.
ghost use Rattle.std.specs.Prelude.{◌≡◌, ◌≤◌};
ghost use Rattle.std.specs.Result.{MatchResult};

use crate::lengths::Lengths;
use model::refusal::{Reason, Refusal};
use std::marker::PhantomData;

// A hash, known by its type, the length of its grams, and the length from which no shared run is missed.
#[derive(Drop)]
pub struct Plan<H> {
    pub(crate) k: usize,
    pub(crate) t: usize,
    pub(crate) hash: PhantomData<H>,
    ghost low: { 1 ≤ k },
    ghost high: { k ≤ 64 },
    ghost least: { k ≤ t },
    ghost most: { t ≤ 256 },
}

impl<H> Plan<H> {
    ghost use Rattle.library.specs.Plans.{Planned, Unplanned};

    // Refuses a k that is not 1 to 64, and then a t that is not k to 256.
    pub fn new(k: usize, t: usize) -> Result<Plan<H>, Refusal>
        ensures { MatchResult result (Planned k t) (Unplanned k t) }
    {
        // k is asked as in `Winnowing::new`, since a plan is refused by a `Reason`.
        if k < 1 || k > 64 {
            return Err(Refusal::plain(Reason::GramLength));
        }
        if t < k || t > 256 {
            return Err(Refusal::plain(Reason::RunLength));
        }
        Ok(Plan {
            k,
            t,
            hash: PhantomData,
        })
    }

    // What a library keeps of it.
    pub(crate) fn lengths(&self) -> Lengths
        ensures gram { result.k ≡ self.now.k }
        ensures run { result.t ≡ self.now.t }
    {
        Lengths {
            k: self.k,
            t: self.t,
        }
    }
}
