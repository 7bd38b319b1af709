// The chosen places of a token list, counted and written as fingerprints.
ghost use Rattle.std.specs.Prelude.{◌≡◌, ◌≤◌, ◌++◌, map, length, drop};
ghost use Rattle.prints.specs.Grams.{Coded};
ghost use Rattle.prints.specs.Walk.{winnowed};
ghost use Rattle.runs.specs.Passages.{codes};
ghost use Rattle.model.specs.Prints.{filed};

use model::fingerprint::Fingerprint;
use prints::hash::GramHash;
use prints::walk::Winnow;
use prints::window::Placed;
use prints::winnowing::Winnowing;
use runs::codes::TokenCodes;
use tokens::token::Token;

// How many places are chosen.
pub fn count_prints<H: GramHash>(
    tokens: &[Token],
    by: Winnowing,
    work: &mut [Placed<H::Value>],
) -> usize
    requires room { by.w ≤ length work.old }
    requires coded { Coded (codes tokens.now) }
    ensures { result ≡ length (winnowed H.GramHash.value H.Value.Ord.cmp by.k by.w (codes tokens.now)) }
{
    Winnow::<H, TokenCodes<'_>>::new(TokenCodes { all: tokens }, by, work).count()
}

// Writes a fingerprint of file `number` for each chosen place into `free`, from its first entry on, and answers how many.
pub fn write_prints<H: GramHash>(
    free: &mut [Fingerprint<H::Value>],
    number: u16,
    tokens: &[Token],
    by: Winnowing,
    work: &mut [Placed<H::Value>],
) -> usize
    requires room { by.w ≤ length work.old }
    requires coded { Coded (codes tokens.now) }
    requires fits { length (winnowed H.GramHash.value H.Value.Ord.cmp by.k by.w (codes tokens.now)) ≤ length free.old }
    requires size { length tokens.now ≤ 1048576 }
    ensures count { result ≡ length (winnowed H.GramHash.value H.Value.Ord.cmp by.k by.w (codes tokens.now)) }
    ensures after { free.new ≡ map (filed number) (winnowed H.GramHash.value H.Value.Ord.cmp by.k by.w (codes tokens.now)) ++ drop (length (winnowed H.GramHash.value H.Value.Ord.cmp by.k by.w (codes tokens.now))) free.old }
{
    let walk = Winnow::<H, TokenCodes<'_>>::new(TokenCodes { all: tokens }, by, work);
    let mut n = 0;
    // by place: of what `iter_mut` leaves, a proof knows no element
    for found in walk {
        free[n] = Fingerprint {
            value: found.value,
            file: number,
            place: found.place as u32,
        };
        n += 1;
    }
    n
}
