// Many records put in at once: the batch is sorted where it stands and then merged with the list.
ghost use Rattle.std.specs.Prelude.{◌≡◌, ◌+◌, ◌<◌, ◌≤◌, length, slice_set, take};
ghost use Rattle.ordered.specs.Gathered.{moved, turned, larger, Merged, Parting, Joined, Grown, TakenIn, AllIn};
ghost use Rattle.order.specs.Listed.{In, ListsExactly};
ghost use Rattle.std.specs.List.Sorted.{IsSorted};

use crate::edit::insert;
use crate::insertion::Insertion;
use crate::search::{Exactly, lower_bound};
use order::Order;
use std::cmp::Ordering;

// Copies the records from `from` on to `to` on.
fn copy_part<T: Order>(xs: &mut [T], from: usize, count: usize, to: usize)
    requires source { from + count ≤ length xs.old }
    requires target { to + count ≤ length xs.old }
    ensures { xs.new ≡ moved xs.old from count to }
{
    if from != to {
        xs.copy_within(from..from + count, to);
    }
}

// Changes the places of two parts that stand side by side from `from` on.
fn turn<T: Order>(xs: &mut [T], from: usize, first: usize, second: usize)
    requires { from + first + second ≤ length xs.old }
    ensures { xs.new ≡ turned xs.old from first second }
{
    let part = &mut xs[from..from + first + second];
    part.rotate_left(first);
}

// Writes the larger of x and y, and answers how x stands to y.
fn write_larger<T: Order>(xs: &mut [T], w: usize, x: T, y: T) -> Ordering
    requires { w < length xs.old }
    ensures answer { result ≡ T.Ord.cmp x y }
    ensures after { xs.new ≡ slice_set xs.old w (larger result x y) }
{
    let answer = x.cmp(&y);
    xs[w] = match answer {
        Ordering::Less => y,
        Ordering::Equal | Ordering::Greater => x,
    };
    answer
}

// Merges the first a records with b others that stand at `at` and on, largest first, so that no record is written over before it is read.
// Of two equal ones one is kept. By places and no iterator, since each comparison says in which list the next step is.
// The counts are in no struct, here and in `join`, since each call has others.
fn merge<T: Order>(xs: &mut [T], a: usize, b: usize, at: usize) -> usize
    requires apart { a + b ≤ at }
    requires within { at + b ≤ length xs.old }
    ensures { Merged T.Ord.cmp xs.old xs.new a b at result }
{
    let mut i = a;
    let mut j = b;
    let mut w = a + b;
    while 0 < i && 0 < j {
        let x = xs[i - 1];
        let y = xs[at + j - 1];
        w -= 1;
        match write_larger(xs, w, x, y) {
            Ordering::Less => {
                j -= 1;
            }
            Ordering::Equal => {
                i -= 1;
                j -= 1;
            }
            Ordering::Greater => {
                i -= 1;
            }
        }
    }
    copy_part(xs, at, j, i);
    copy_part(xs, w, a + b - w, i + j);
    i + j + (a + b - w)
}

// Where two rising lists that stand side by side, a records and b records, are to be parted: the first i of the one and the first j of the
// other are less than all others.
#[derive(Clone, Copy)]
struct Halves {
    i: usize,
    j: usize,
}

// The longer list is parted in its middle, and the other by a search for the record there.
fn halve<T: Order>(xs: &[T], a: usize, b: usize) -> Halves
    requires first { 0 < a }
    requires second { 1 < b }
    requires within { a + b ≤ length xs.now }
    ensures { Parting T.Ord.cmp xs.now a b result.i result.j }
{
    if b <= a {
        let i = a / 2;
        let j = lower_bound(&xs[a..a + b], &Exactly(xs[i]));
        Halves { i, j }
    } else {
        let j = b / 2;
        let i = lower_bound(&xs[..a], &Exactly(xs[a + j]));
        Halves { i, j }
    }
}

// One record that stands behind the first n is put in among them.
fn insert_next<T: Order>(xs: &mut [T], n: usize) -> usize
    requires { n < length xs.old }
    ensures { Grown T.Ord.cmp xs.old xs.new n result }
{
    let x = xs[n];
    match insert(xs, n, x) {
        Insertion::At(_) => n + 1,
        Insertion::Present(_) => n,
        Insertion::Full => n,
    }
}

// The first a records and the b behind them, both rising, become one rising list. What stands from `at` on is free room. Where it holds
// the b records, they are moved there and merged. Else both lists are parted, and the parts joined on their own.
fn join<T: Order>(xs: &mut [T], a: usize, b: usize, at: usize) -> usize
    requires apart { a + b ≤ at }
    requires within { at ≤ length xs.old }
    ensures { Joined T.Ord.cmp xs.old xs.new a b at result }
{
    if a == 0 || b == 0 {
        return a + b;
    }
    if b == 1 {
        return insert_next(xs, a);
    }
    if b <= xs.len() - at {
        copy_part(xs, a, b, at);
        return merge(xs, a, b, at);
    }
    let Halves { i, j } = halve(xs, a, b);
    turn(xs, i, a - i, j);
    let low = join(xs, i, j, at);
    let high = join(&mut xs[i + j..], a - i, b - j, at - (i + j));
    copy_part(xs, i + j, high, low);
    low + high
}

// Of equal records, which stand side by side where the list is sorted, one is kept, and the answer is how many there are then. By hand,
// since only a `Vec` has `dedup`.
fn dedup<T: Order>(list: &mut [T]) -> usize
    ensures fewer { result ≤ length list.old }
    ensures lists { IsSorted T.Ord.cmp list.old → ListsExactly T.Ord.cmp (take result list.new) (λ y. In y list.old) }
{
    if list.is_empty() {
        return 0;
    }
    let mut last = list[0];
    let mut count = 1;
    for k in 1..list.len() {
        let x = list[k];
        if last.cmp(&x).is_ge() {
            continue;
        }
        list[count] = x;
        count += 1;
        last = x;
    }
    count
}

// The records become a rising list.
fn sort<T: Order>(list: &mut [T]) -> usize
    ensures fewer { result ≤ length list.old }
    ensures lists { ListsExactly T.Ord.cmp (take result list.new) (λ y. In y list.old) }
{
    list.sort_unstable();
    dedup(list)
}

// The m records behind the first n become part of the list; what stands behind them is free room.
fn take_in<T: Order>(xs: &mut [T], n: usize, m: usize) -> usize
    requires { n + m ≤ length xs.old }
    ensures { TakenIn T.Ord.cmp xs.old xs.new n m result }
{
    let b = sort(&mut xs[n..n + m]);
    join(xs, n, b, n + m)
}

// As far as the part reaches that an insertion of m records behind n uses: m entries past them, or all that are there.
fn reach(len: usize, n: usize, m: usize) -> usize
    requires { n + m ≤ len }
    ensures within { (n + m ≤ result) × (result ≤ len) × (result ≤ n + m + m) }
    ensures room { n + m + m ≤ len → result ≡ n + m + m }
{
    n + m + m.min(len - (n + m))
}

// The m records behind the first n, which rise, become part of the list in one go, and the answer is how many there are then: of equal
// records one is kept. Where another m entries are free they serve as room; the entries past these are untouched.
pub fn insert_all<T: Order>(list: &mut [T], n: usize, m: usize) -> usize
    requires { n + m ≤ length list.old }
    ensures { AllIn T.Ord.cmp list.old list.new n m result }
{
    let end = reach(list.len(), n, m);
    take_in(&mut list[..end], n, m)
}
