// A lent slice as an ordered list, which keeps what the functions below it promise only of a list that rises.
ghost use Rattle.std.specs.Prelude.{◌≡◌, ◌+◌, ◌≤◌, ◌==◌, ◌≢◌, ◌∷◌, Bool, false, length, take, IfErr, MatchOption, MatchResult};
ghost use Rattle.std.specs.Fn.{ComputesKey};
ghost use Rattle.order.specs.Listed.{In, Rising, ListsExactly};
ghost use Rattle.ordered.specs.Answers.{AfterInsert, more};
ghost use Rattle.ordered.specs.Edited.{Fewer, Missed, TakenOut, Thinned};
ghost use Rattle.ordered.specs.Found.{Seat, Stands, Together};
ghost use Rattle.ordered.specs.Gathered.{AllIn};
ghost use Rattle.ordered.specs.Rises.{rising_prop};

use crate::batch::insert_all;
use crate::edit::{insert, remove, remove_where};
use crate::insertion::Insertion;
use crate::search::{Key, Span, find, range};
use order::Order;
use std::ops::Range;

// The first `count` entries are the records, and rise; the others are free.
#[derive(Drop)]
pub struct OrderedList<'a, T: Order> {
    pub entries: &'a mut [T],
    pub count: usize,
    pub ghost within: { count ≤ length entries.now },
    pub ghost rises: { Rising T.Ord.cmp (take count entries.now) } by { rising_prop T.Ord.cmp (take count entries.now) },
}

// Each method that writes says that the list is as long as before and the one that was lent. No ghost field can: it sees one state alone.
impl<'a, T: Order> OrderedList<'a, T> {
    // A list of no records, over free entries.
    pub fn new(entries: &'a mut [T]) -> OrderedList<'a, T>
        ensures count { result.count ≡ 0 }
        ensures entries { result.entries.now ≡ entries.old }
        ensures same_reference { result.entries.ghost_name ≡ entries.entry.ghost_name }
    {
        OrderedList { entries, count: 0 }
    }

    pub fn len(&self) -> usize
        ensures { result ≡ self.now.count }
    {
        self.count
    }

    pub fn is_empty(&self) -> bool
        ensures { result ≡ (self.now.count == 0) }
    {
        self.count == 0
    }

    // The records.
    pub fn as_slice(&self) -> &[T]
        ensures items { result.now ≡ take self.now.count self.now.entries.now }
        ensures rises { Rising T.Ord.cmp result.now }
    {
        &self.entries[..self.count]
    }

    // Where x stands, or in an Err where it would be put in.
    pub fn find(&self, x: T) -> Result<usize, usize>
        ensures place { MatchResult result (λ i. Stands (take self.now.count self.now.entries.now) i x) (λ i. Seat T.Ord.cmp (take self.now.count self.now.entries.now) i x) }
        ensures none { IfErr result (λ _. In x (take self.now.count self.now.entries.now) → ⊥) }
    {
        find(self.as_slice(), x)
    }

    // The places of the records of the key.
    pub fn range<K: Key<T>>(&self, key: &K) -> Range<usize>
        ensures forward { result.start ≤ result.end }
        ensures within { result.end ≤ self.now.count }
        ensures together { Together (K.Key.places key.now) (take self.now.count self.now.entries.now) result.start result.end }
    {
        let Span { from, to } = range(self.as_slice(), key);
        from..to
    }

    // Puts x in at its place. An equal record is not put in twice, and without a free entry nothing is done.
    pub fn insert(&mut self, x: T) -> Insertion
        ensures after { AfterInsert T.Ord.cmp self.old.entries.now self.new.entries.now self.old.count x result }
        ensures count { self.new.count ≡ self.old.count + more result }
        ensures lists { result ≢ Insertion.Full → ListsExactly T.Ord.cmp (take self.new.count self.new.entries.now) (λ y. In y (x ∷ take self.old.count self.old.entries.now)) }
        ensures room { length self.new.entries.now ≡ length self.old.entries.now }
        ensures same_reference { self.new.entries.ghost_name ≡ self.old.entries.ghost_name }
    {
        let answer = insert(self.entries, self.count, x);
        if let Insertion::At(_) = answer {
            self.count += 1;
        }
        answer
    }

    // The m records behind the list become part of it: of equal records one is kept. Where another m entries are free they serve as room;
    // the entries past these are untouched.
    pub fn insert_all(&mut self, m: usize)
        requires { self.old.count + m ≤ length self.old.entries.now }
        ensures after { AllIn T.Ord.cmp self.old.entries.now self.new.entries.now self.old.count m self.new.count }
        ensures lists { ListsExactly T.Ord.cmp (take self.new.count self.new.entries.now) (λ y. In y (take (self.old.count + m) self.old.entries.now)) }
        ensures room { length self.new.entries.now ≡ length self.old.entries.now }
        ensures same_reference { self.new.entries.ghost_name ≡ self.old.entries.ghost_name }
    {
        self.count = insert_all(self.entries, self.count, m);
    }

    // Takes x out, and says where it stood; the list is unchanged where it did not.
    pub fn remove(&mut self, x: T) -> Option<usize>
        ensures after { MatchOption result (Missed T.Ord.cmp self.old.entries.now self.new.entries.now self.old.count x) (λ i. TakenOut T.Ord.cmp self.old.entries.now self.new.entries.now self.old.count i x) }
        ensures count { MatchOption result (self.new.count ≡ self.old.count) (λ _. self.new.count + 1 ≡ self.old.count) }
        ensures lists { ListsExactly T.Ord.cmp (take self.new.count self.new.entries.now) (λ y. In y (take self.old.count self.old.entries.now) × (x ≢ y)) }
        ensures room { length self.new.entries.now ≡ length self.old.entries.now }
        ensures same_reference { self.new.entries.ghost_name ≡ self.old.entries.ghost_name }
    {
        let place = remove(self.entries, self.count, x)?;
        self.count -= 1;
        Some(place)
    }

    // Takes out all that the test names, in one pass.
    pub fn remove_all<F: FnMut(&T) -> bool>(&mut self, test: F)
        requires { F.IsAlwaysCallable test }
        ensures fewer { Fewer T.Ord.cmp self.old.entries.now self.new.entries.now self.old.count self.new.count }
        ensures thinned { (named : T → Bool) → ComputesKey F.FnMut named test → Thinned T.Ord.cmp named self.old.entries.now self.new.entries.now self.old.count self.new.count }
        ensures lists { (named : T → Bool) → ComputesKey F.FnMut named test → ListsExactly T.Ord.cmp (take self.new.count self.new.entries.now) (λ y. In y (take self.old.count self.old.entries.now) × (named y ≡ false)) }
        ensures room { length self.new.entries.now ≡ length self.old.entries.now }
        ensures same_reference { self.new.entries.ghost_name ≡ self.old.entries.ghost_name }
    {
        self.count = remove_where(self.entries, self.count, test);
    }
}
