// Binary searches: by a key, which is a leading part of the records' order, and for a whole record.
ghost use Rattle.std.specs.Prelude.{◌≡◌, ◌≤◌, Bool, length, MatchResult};
ghost use Rattle.std.specs.Fn.{ComputesKey};
ghost use Rattle.std.specs.Ordering.{is_lt, is_le};
ghost use Rattle.std.specs.declared.cmp.Ordering.TheVariants.{Less};
ghost use Rattle.std.specs.declared.cmp.Ordering.{Ordering};
ghost use Rattle.order.specs.Listed.{Rising};
ghost use Rattle.ordered.specs.Found.{Steady, Cut, Together, Stands, Seat};
ghost use Rattle.std.proofs.Common.{rules};

use order::Order;
use std::cmp::Ordering;

// A leading part of the records' order. `place` says where a record stands: Less before all records of this key, Equal at them,
// Greater after them. A trait and no closure, since each key owes the law `steady`, which a closure can't carry.
pub trait Key<T: Order> {
    ghost places: { Self → T → Ordering };

    fn place(&self, x: &T) -> Ordering
        ensures { result ≡ places self.now x.now };

    ghost steady: { (k : Self) (x y : T) → T.Ord.cmp x y ≡ Less → Steady (places k x) (places k y) };
}

// A whole record as a key.
#[derive(Clone, Copy, PartialEq, Eq, Debug)]
pub struct Exactly<T>(pub T);

impl<T: Order> Key<T> for Exactly<T> {
    ghost places = { λ k x. T.Ord.cmp x k.0 };

    ghost steady = { Prim.search rules };

    fn place(&self, x: &T) -> Ordering {
        x.cmp(&self.0)
    }
}

// The records from `from` on and before `to`. No `Range`, since that is not `Copy`.
#[derive(Clone, Copy, PartialEq, Eq, Debug)]
pub struct Span {
    pub from: usize,
    pub to: usize,
}

// The first place whose record does not pass the test. By hand, since std's `partition_point` says nothing of a list in which a record
// that passes comes after one that does not, and this stands next to such records in any list.
fn cut<T, F: FnMut(&T) -> bool>(list: &[T], mut test: F) -> usize
    requires { F.IsAlwaysCallable test }
    ensures { (before : T → Bool) → ComputesKey F.FnMut before test → Cut before list.now result }
{
    let mut low = 0;
    let mut high = list.len();
    while low < high {
        let mid = low + (high - low) / 2;
        if test(&list[mid]) {
            low = mid + 1;
        } else {
            high = mid;
        }
    }
    low
}

// The first place whose record is not less than the key.
pub fn lower_bound<T: Order, K: Key<T>>(list: &[T], key: &K) -> usize
    ensures { Cut (λ x. is_lt (K.Key.places key.now x)) list.now result }
{
    cut(list, |x| key.place(x).is_lt())
}

// The first place whose record is greater than the key.
pub fn upper_bound<T: Order, K: Key<T>>(list: &[T], key: &K) -> usize
    ensures { Cut (λ x. is_le (K.Key.places key.now x)) list.now result }
{
    cut(list, |x| key.place(x).is_le())
}

// The records of the key: where the list rises they stand together, from `from` to before `to`.
pub fn range<T: Order, K: Key<T>>(list: &[T], key: &K) -> Span
    ensures within { (result.from ≤ length list.now) × (result.to ≤ length list.now) }
    ensures together { Rising T.Ord.cmp list.now → Together (K.Key.places key.now) list.now result.from result.to }
{
    Span {
        from: lower_bound(list, key),
        to: upper_bound(list, key),
    }
}

// Where x stands, or in an Err where it would be put in. The place is the lower bound of x, so of equal records the first is found, which
// std's `binary_search` does not promise.
pub fn find<T: Order>(list: &[T], x: T) -> Result<usize, usize>
    ensures place { MatchResult result (λ i. Stands list.now i x) (λ i. Seat T.Ord.cmp list.now i x) }
    ensures first { MatchResult result (Cut (λ y. is_lt (T.Ord.cmp y x)) list.now) (Cut (λ y. is_lt (T.Ord.cmp y x)) list.now) }
{
    let place = lower_bound(list, &Exactly(x));
    match list.get(place) {
        Some(y) if y.cmp(&x).is_eq() => Ok(place),
        _ => Err(place),
    }
}
