// One record put in or taken out, and all that a test names taken out in one pass.
ghost use Rattle.std.specs.Prelude.{◌≡◌, ◌+◌, ◌<◌, ◌≤◌, Bool, length, take, if◌then◌else◌, MatchOption, MatchResult, slice_set};
ghost use Rattle.ordered.specs.Edited.{Already, Fewer, Missed, PutIn, TakenOut, Thinned};
ghost use Rattle.std.specs.Fn.{ComputesKey};
ghost use Rattle.ordered.specs.Found.{Seat};
ghost use Rattle.ordered.specs.Answers.{AfterInsert};

use crate::insertion::Insertion;
use crate::search::find;
use order::Order;

// What a record may pass or fail. `holds` is the test as the proofs have it.
pub trait Predicate<T> {
    ghost holds: { Self → T → Bool };

    fn test(&self, x: &T) -> bool
        ensures { result ≡ holds self.now x.now };
}

// Where x stands among the first n, or in an Err where it would be put in.
fn seat<T: Order>(list: &[T], n: usize, x: T) -> Result<usize, usize>
    requires { n ≤ length list.now }
    ensures { MatchResult result (λ i. Already list.now list.now n i x) (λ i. Seat T.Ord.cmp (take n list.now) i x × Missed T.Ord.cmp list.now list.now n x) }
{
    find(&list[..n], x)
}

// Moves the records from i up to n up by one, and writes x at i.
fn put<T: Order>(list: &mut [T], n: usize, i: usize, x: T)
    requires place { i ≤ n }
    requires room { n < length list.old }
    ensures { Seat T.Ord.cmp (take n list.old) i x → PutIn T.Ord.cmp list.old list.new n i x }
{
    list.copy_within(i..n, i + 1);
    list[i] = x;
}

// Moves the records after i and before n down by one.
fn close<T: Order>(list: &mut [T], n: usize, i: usize)
    requires place { i < n }
    requires within { n ≤ length list.old }
    ensures { (x : T) → Already list.old list.old n i x → TakenOut T.Ord.cmp list.old list.new n i x }
{
    list.copy_within(i + 1..n, i);
}

// Puts x into the first n, which rise, at its place. An equal record is not put in twice, and without a free entry nothing is done.
pub fn insert<T: Order>(list: &mut [T], n: usize, x: T) -> Insertion
    requires { n ≤ length list.old }
    ensures { AfterInsert T.Ord.cmp list.old list.new n x result }
{
    match seat(list, n, x) {
        Ok(i) => Insertion::Present(i),
        Err(_) if n == list.len() => Insertion::Full,
        Err(i) => {
            put(list, n, i, x);
            Insertion::At(i)
        }
    }
}

// Takes x out of the first n, which rise, and says where it stood; the list is unchanged where it did not.
pub fn remove<T: Order>(list: &mut [T], n: usize, x: T) -> Option<usize>
    requires { n ≤ length list.old }
    ensures { MatchOption result (Missed T.Ord.cmp list.old list.new n x) (λ i. TakenOut T.Ord.cmp list.old list.new n i x) }
{
    match seat(list, n, x) {
        Ok(i) => {
            close(list, n, i);
            Some(i)
        }
        Err(_) => None,
    }
}

// Takes out of the first n all that the test names, in one pass, and answers how many are left. By hand, since only a `Vec` has `retain`.
pub fn remove_where<T: Order, F: FnMut(&T) -> bool>(list: &mut [T], n: usize, mut test: F) -> usize
    requires within { n ≤ length list.old }
    requires callable { F.IsAlwaysCallable test }
    ensures fewer { Fewer T.Ord.cmp list.old list.new n result }
    ensures thinned { (named : T → Bool) → ComputesKey F.FnMut named test → Thinned T.Ord.cmp named list.old list.new n result }
{
    let mut left = 0;
    for i in 0..n {
        let x = list[i];
        if test(&x) {
            continue;
        }
        list[left] = x;
        left += 1;
    }
    left
}

// Takes out of the first n all that pass the test, in one pass, and answers how many are left.
pub fn remove_all<T: Order, P: Predicate<T>>(list: &mut [T], n: usize, test: &P) -> usize
    requires { n ≤ length list.old }
    ensures { Thinned T.Ord.cmp (P.Predicate.holds test.now) list.old list.new n result }
{
    remove_where(list, n, |x| test.test(x))
}
