// What has a total order, and lists that rise by it.
#![tactic(auto)]

ghost use Rattle.std.specs.Prelude.{◌≡◌};
ghost use Rattle.std.specs.Ordering.{nat_cmp};
ghost use Rattle.order.specs.Total.{TotalOrder, by_key};
ghost use Rattle.order.specs.Listed.{OneList};
ghost use Rattle.order.specs.Orders.{order_both, numbers, order_by};

pub mod ranked;

use std::cmp::Ordering;

// Values with a total order by which equal values are one value. The order itself is std's `Ord`, which records derive.
// Generic code is proved once, from the law.
pub trait Order: Ord + Copy {
    // How the value stands to another, by that order.
    fn compare(&self, other: &Self) -> Ordering
        ensures { result ≡ Self.cmp self.now other.now }
    {
        self.cmp(other)
    }

    ghost total: { TotalOrder Self.cmp };
}

// One impl for each kind of number: a generic one would want a trait with as many impls.
impl Order for u16 {
    ghost total = { numbers };
}

impl Order for u32 {
    ghost total = { numbers };
}

impl Order for u64 {
    ghost total = { numbers };
}

impl Order for usize {
    ghost total = { numbers };
}

// By the first part, and where these are equal, by the second.
impl<A: Order, B: Order> Order for (A, B) {
    ghost total = { order_both A.Order.total B.Order.total };
}

// A rising list is known by what it lists.
pub fn one_list<X>()
    ensures { OneList X }
{}

// A record derives its order, by its fields in turn. That is the order of nested pairs of them, which tell records apart.
// This is the pattern for the records of other crates.
#[cfg(test)]
mod tests {
    use super::*;
    use crate::ranked::{Ranked, Ranking};

    #[derive(Clone, Copy, PartialEq, Eq, PartialOrd, Ord)]
    struct Entry<V> {
        value: V,
        file: u16,
        place: u32,
    }

    impl<V: Order> Order for Entry<V> {
        // from equal pairs the fields are equal
        ghost total = { order_by (order_both V.Order.total (order_both numbers numbers)) (λ x. (x.value, (x.file, x.place)))
            (λ x y e i. record { value = (e i).0; file = (e i).1.0; place = (e i).1.1 }) };
    }

    #[test]
    fn records_rise_by_their_fields(rt: HostRuntime) {
        let a = Entry {
            value: 5u32,
            file: 2,
            place: 9,
        };
        let b = Entry {
            value: 5u32,
            file: 3,
            place: 1,
        };
        assert!(rt; a.cmp(&b) == Ordering::Less);
        assert!(rt; b.cmp(&a) == Ordering::Greater);
        assert!(rt; a.cmp(&a) == Ordering::Equal);
        assert!(rt; a.compare(&b) == Ordering::Less && b.compare(&a) == Ordering::Greater);
        assert!(rt; (2u16, 1u64).cmp(&(1u16, 7u64)) == Ordering::Greater);
    }

    // Ordered by its number, with no `Ord`.
    #[derive(Clone, Copy)]
    struct Line(u32);

    impl Ranking for Line {
        ghost cmp = { by_key (λ l. l.0) nat_cmp };

        fn compare(&self, other: &Line) -> Ordering {
            self.0.cmp(&other.0)
        }

        ghost total = { order_by numbers (λ l. l.0) (λ x y e i. record { 0 = e i }) };
    }

    #[test]
    fn a_ranking_orders_what_it_ranks(rt: HostRuntime) {
        let a = Ranked(Line(3));
        let b = Ranked(Line(5));
        assert!(rt; a < b);
        assert!(rt; a == a);
        assert!(rt; Order::compare(&b, &a) == Ordering::Greater);
        assert!(rt; a.max(b).0.0 == 5);
    }
}
