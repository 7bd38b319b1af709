// What a lent slice holds once the list over it has ended.
ghost use Rattle.std.specs.Prelude.{◌≡◌};
ghost use Rattle.ordered.specs.Answers.{AfterInsert};

use order::Order;
use ordered::insertion::Insertion;
use ordered::list::OrderedList;

// The list keeps the reference that it was lent, so whoever lent it knows what stands there afterwards.
pub fn put_first<T: Order>(entries: &mut [T], x: T) -> Insertion
    ensures { AfterInsert T.Ord.cmp entries.old entries.new 0 x result }
{
    let mut list = OrderedList::new(entries);
    list.insert(x)
}
