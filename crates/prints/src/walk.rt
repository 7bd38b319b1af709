// The walk over a file's codes that hands out its chosen places.
ghost use Rattle.std.specs.Prelude.{◌≡◌, ℕ, ◌+◌, ◌-◌, ◌^◌, ◌<◌, ◌≤◌, List, [], length, take, slice_index, nat_lt, if◌then◌else◌, MatchOption};
ghost use Rattle.std.specs.Iterator.{YieldsFirst, item_count};
ghost use Rattle.prints.specs.Walk.{Going, Gave, winnowed};
ghost use Rattle.prints.specs.Grams.{Coded, Gram, Rolls};

use crate::hash::GramHash;
use crate::window::{Placed, WindowQueue};
use crate::winnowing::Winnowing;
use order::Order;
use std::array;
use std::marker::Model;

// A list of codes that is read by place.
pub trait Codes {
    ghost codes: { Self → List ℕ };

    fn len(&self) -> usize
        ensures { result ≡ length (codes self.now) };

    // The code at a place, and 0 past the end.
    fn code(&self, i: usize) -> u16
        ensures { result ≡ slice_index (codes self.now) i };
}

impl Codes for &[u16] {
    ghost codes = { λ s. s.now };

    fn len(&self) -> usize {
        (*self).len()
    }

    fn code(&self, i: usize) -> u16 {
        self.get(i).copied().unwrap_or(0)
    }
}

// The code at a place below k, and 0 from there on, where no code is asked for.
fn code_below<C: Codes>(codes: &C, k: usize, i: usize) -> u16
    ensures { result ≡ (if nat_lt i k then slice_index (C.Codes.codes codes.now) i else 0) }
{
    if i < k { codes.code(i) } else { 0 }
}

// The value of the first k codes.
fn first_value<H: GramHash, C: Codes>(codes: &C, k: usize) -> H::Value
    requires { k ≤ 64 }
    ensures { k ≤ length (C.Codes.codes codes.now) → Gram (take k (C.Codes.codes codes.now)) → result ≡ H.GramHash.value (take k (C.Codes.codes codes.now)) }
{
    let gram: [u16; 64] = array::from_fn(|i| code_below(codes, k, i));
    H::of(&gram[..k])
}

// From the value of the gram at a place to that of the next, while there is one among so many codes.
fn rolled<H: GramHash, C: Codes>(
    codes: &C,
    len: usize,
    value: H::Value,
    k: usize,
    place: usize,
) -> Option<H::Value>
    requires len { len ≡ length (C.Codes.codes codes.now) }
    requires fits { place + k < 2 ^ 64 }
    ensures { MatchOption result (length (C.Codes.codes codes.now) ≤ place + k) (λ next. (place + k < length (C.Codes.codes codes.now)) × Rolls H.GramHash.value value k (slice_index (C.Codes.codes codes.now) place) (slice_index (C.Codes.codes codes.now) (place + k)) next) }
{
    let behind = place + k;
    if behind < len {
        Some(H::roll(value, k, codes.code(place), codes.code(behind)))
    } else {
        None
    }
}

// The grams from a place on, each as its place and its value.
#[derive(Drop)]
struct Grams<H: GramHash, C: Codes> {
    codes: C,
    // how many codes there are, asked once
    len: usize,
    k: usize,
    place: usize,
    // the value at `place`, while there is a gram
    value: Option<H::Value>,
}

impl<H: GramHash, C: Codes> Grams<H, C> {
    // All grams of k codes.
    fn new(codes: C, k: usize) -> Grams<H, C>
        requires gram { (1 ≤ k) × (k ≤ 64) }
        requires coded { Coded (C.Codes.codes codes) }
        ensures going { Going H.GramHash.value C.Codes.codes result }
        ensures codes { result.codes ≡ codes }
        ensures k { result.k ≡ k }
        ensures place { result.place ≡ 0 }
    {
        let len = codes.len();
        let value = if k <= len {
            Some(first_value::<H, C>(&codes, k))
        } else {
            None
        };
        Grams {
            codes,
            len,
            k,
            place: 0,
            value,
        }
    }

    // The gram at `place`, if there is one. No `Iterator`, since that would ask `Drop` of the codes.
    fn next(&mut self) -> Option<Placed<H::Value>>
        requires { Going H.GramHash.value C.Codes.codes self.old }
        ensures { Gave H.GramHash.value C.Codes.codes self.old result self.new }
    {
        let value = self.value?;
        let place = self.place;
        self.place += 1;
        self.value = rolled::<H, C>(&self.codes, self.len, value, self.k, place);
        Some(Placed { place, value })
    }
}

// A walk over codes that hands out the chosen places in rising order, each with its value. Clauses see it as the list of those that
// it has yet to hand out.
#[derive(Drop)]
pub struct Winnow<'a, H: GramHash, C: Codes> {
    grams: Grams<H, C>,
    queue: WindowQueue<'a, H::Value>,
    // the least place that may still be handed out
    from: usize,
}

impl<'a, H: GramHash, C: Codes> Model for Winnow<'a, H, C> {
    ghost use Rattle.std.specs.Prelude.{List, length};
    ghost use Rattle.prints.specs.declared.window.Placed.{Placed};

    ghost Value = { List (Placed H.Value) };

    ghost use Rattle.prints.specs.Walk.{winnowed_from, Walking};

    ghost view = { λ s. winnowed_from H.GramHash.value H.Value.Ord.cmp s.grams.k (length s.queue.slots.now) (C.Codes.codes s.grams.codes) s.from };

    ghost invariant = { λ s. Walking H.GramHash.value H.Value.Ord.cmp C.Codes.codes s.grams s.queue s.from };
}

impl<'a, H: GramHash, C: Codes> Winnow<'a, H, C> {
    // A walk over these codes. It uses the first w entries of the work list.
    pub fn new(codes: C, by: Winnowing, work: &'a mut [Placed<H::Value>]) -> Winnow<'a, H, C>
        requires room { by.w ≤ length work.old }
        requires coded { Coded (C.Codes.codes codes) }
        ensures all { result ≡ winnowed H.GramHash.value H.Value.Ord.cmp by.k by.w (C.Codes.codes codes) }
        ensures few { length result < 2 ^ 64 }
    {
        Winnow {
            grams: Grams::new(codes, by.k),
            queue: WindowQueue::new(work, by.w),
            from: 0,
        }
    }

    // The next chosen place with its value, and nothing at the end and from then on.
    pub fn next(&mut self) -> Option<Placed<H::Value>>
        ensures { YieldsFirst (λ s. s) self.old result self.new }
    {
        while let Some(here) = self.grams.next() {
            if let Some(best) = self.queue.push(here) {
                if best.place >= self.from {
                    self.from = best.place + 1;
                    return Some(best);
                }
            }
        }
        None
    }

    // Goes to the end, and answers how many places there were still to hand out.
    pub fn count(&mut self) -> usize
        ensures all { result ≡ length self.old }
        ensures none { self.new ≡ [] }
    {
        // for the proof, which learns here that the codes bound the count
        let _ = &self.from;
        let mut n = 0;
        while let Some(_) = self.next() {
            n += 1;
        }
        n
    }
}

// The same steps for `for`, `collect` and the other adapters, which end the walk and so ask `Drop` of the codes.
impl<H: GramHash, C: Codes + Drop> Iterator for Winnow<'_, H, C> {
    type Item = Placed<H::Value>;

    ghost next_gives = { YieldsFirst (λ s. s) };

    ghost remaining = { item_count (λ s. s) };

    fn next(&mut self) -> Option<Placed<H::Value>> {
        Winnow::next(self)
    }
}
