// All chosen places of a list of codes at once.
ghost use Rattle.std.specs.Prelude.{◌≡◌, map, length, IfOk, Decides, MatchResult};
ghost use Rattle.prints.specs.declared.list.Unfit.TheVariants.{Memory};
ghost use Rattle.prints.specs.Grams.{Code, Coded};
ghost use Rattle.prints.specs.Listed.{Fit, UnfitFor, ChosenListed};

use crate::hash::GramHash;
use crate::walk::{Codes, Winnow};
use crate::window::Placed;
use crate::winnowing::Winnowing;
use std::alloc::{AllocError, AllocFailed, Global};
use std::error::Error;
use std::fmt;

// Why codes have no list of chosen places.
#[derive(Clone, Copy, PartialEq, Eq, Debug)]
pub enum Unfit {
    // k is not 1 to 64
    Gram,
    // w is 0
    Window,
    // the work list has fewer than w entries
    Work,
    // a code is not 1 to 1023
    Code,
    // there is no memory for the list
    Memory,
}

// Both written out, since a derived `From` has no contract, and `fingerprints` says what `?` makes of a failed allocation.
impl From<AllocError> for Unfit {
    ghost from_gives = { λ _ r. r ≡ Memory };

    fn from(_: AllocError) -> Unfit {
        Unfit::Memory
    }
}

impl<T: Drop> From<AllocFailed<T>> for Unfit {
    ghost from_gives = { λ _ r. r ≡ Memory };

    fn from(_: AllocFailed<T>) -> Unfit {
        Unfit::Memory
    }
}

// Written out, so that the crate rests on `order` alone.
impl fmt::Display for Unfit {
    ghost use Rattle.std.specs.Prelude.{Some};
    ghost use Rattle.prints.specs.Listed.{unfit_text};

    ghost output = { λ e. Some (unfit_text e) };

    fn fmt<W: fmt::Write>(&self, f: &mut fmt::Formatter<W>) -> fmt::Result {
        f.write_str(match self {
            Unfit::Gram => "k is not 1 to 64",
            Unfit::Window => "w is 0",
            Unfit::Work => "the work list is too short",
            Unfit::Code => "a code is not 1 to 1023",
            Unfit::Memory => "no memory",
        })
    }
}

impl Error for Unfit {}

fn is_code(c: u16) -> bool
    ensures { Decides result (Code c) }
{
    (1..=1023).contains(&c)
}

// Whether each is a code.
fn all_codes(codes: &[u16]) -> bool
    ensures { Decides result (Coded codes.now) }
{
    codes.iter().all(|c| is_code(*c))
}

// The chosen places of these codes in rising order, each with its value: grams of k codes, windows of w values.
// k and w are numbers, and no `Winnowing`, since to refuse them is part of the answer.
pub fn fingerprints<H: GramHash>(
    heap: Global,
    codes: &[u16],
    k: usize,
    w: usize,
    work: &mut [Placed<H::Value>],
) -> Result<Vec<Placed<H::Value>>, Unfit>
    ensures fit { MatchResult result (λ _. Fit k w (length work.old) codes.now) (UnfitFor k w (length work.old) codes.now) }
    ensures listed { IfOk result (λ v. ChosenListed H.GramHash.value H.Value.Ord.cmp k w codes.now v.items) }
{
    let by = Winnowing::new(k, w)?;
    if work.len() < by.w {
        return Err(Unfit::Work);
    }
    if !all_codes(codes) {
        return Err(Unfit::Code);
    }
    let walk = Winnow::<H, &[u16]>::new(codes, by, work);
    Ok(walk.collect(heap)?)
}
