// A record of three fields, ordered by its fields in turn, with its first field as a key.
// A record of its own, since those of the library are in crates above the list.
ghost use Rattle.order.specs.Orders.{numbers, order_both, order_by};
ghost use Rattle.order.specs.Total.{by_both};
ghost use Rattle.ordered.proofs.Keys.{leading};
ghost use Rattle.std.specs.Ordering.{nat_cmp};

use order::Order;
use ordered::search::Key;
use std::cmp::Ordering;

#[derive(Clone, Copy, PartialEq, Eq, PartialOrd, Ord, Debug)]
pub struct Entry<V> {
    pub value: V,
    pub file: u16,
    pub place: u32,
}

impl<V: Order> Order for Entry<V> {
    // the fields tell entries apart
    ghost total = { order_by (order_both V.Order.total (order_both numbers numbers)) (λ x. (x.value, (x.file, x.place)))
        (λ x y e i. record { value = (e i).0; file = (e i).1.0; place = (e i).1.1 }) };
}

// All entries of one value.
#[derive(Clone, Copy, PartialEq, Eq, Debug)]
pub struct OfValue<V>(pub V);

impl<V: Order> Key<Entry<V>> for OfValue<V> {
    ghost places = { λ k x. V.Ord.cmp x.value k.0 };

    // entries are ordered by value first
    ghost steady = { λ k x y h. leading V.Order.total (λ e. e.value) (λ a b. by_both nat_cmp nat_cmp (a.file, a.place) (b.file, b.place)) k.0 x y h };

    fn place(&self, x: &Entry<V>) -> Ordering {
        x.value.cmp(&self.0)
    }
}
