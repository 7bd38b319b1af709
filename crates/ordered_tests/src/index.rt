// A struct that keeps an ordered list, and says what its methods do in words of its entries.
ghost use Rattle.std.specs.Prelude.{◌≡◌, ◌+◌, ◌≤◌, length, take, nat_eq};
ghost use Rattle.ordered.specs.Gathered.{AllIn};
ghost use Rattle.ordered.specs.Edited.{Thinned};
ghost use Rattle.ordered.specs.Answers.{AfterInsert, more};
ghost use Rattle.ordered.specs.Found.{Together};
ghost use Rattle.ordered_tests.specs.Entries.{by_fields};

use crate::entry::{Entry, OfValue};
use order::Order;
use ordered::insertion::Insertion;
use ordered::list::OrderedList;
use std::ops::Range;

#[derive(Drop)]
pub struct Index<'a, E: Order> {
    pub list: OrderedList<'a, E>,
}

impl<V: Order> Index<'_, Entry<V>> {
    pub fn add(&mut self, x: Entry<V>) -> Insertion
        ensures entries { AfterInsert (by_fields V.Ord.cmp) self.old.list.entries.now self.new.list.entries.now self.old.list.count x result }
        ensures count { self.new.list.count ≡ self.old.list.count + more result }
    {
        self.list.insert(x)
    }

    pub fn add_batch(&mut self, m: usize)
        requires { self.old.list.count + m ≤ length self.old.list.entries.now }
        ensures { AllIn (by_fields V.Ord.cmp) self.old.list.entries.now self.new.list.entries.now self.old.list.count m self.new.list.count }
    {
        self.list.insert_all(m);
    }

    pub fn remove_file(&mut self, file: u16)
        ensures { Thinned (by_fields V.Ord.cmp) (λ x. nat_eq x.file file) self.old.list.entries.now self.new.list.entries.now self.old.list.count self.new.list.count }
    {
        self.list.remove_all(|x| x.file == file);
    }

    // The entries of the value are those at the places of the range.
    pub fn of_value(&self, value: V) -> Range<usize>
        ensures { Together (λ x. V.Ord.cmp x.value value) (take self.now.list.count self.now.list.entries.now) result.start result.end }
    {
        self.list.range(&OfValue(value))
    }
}
