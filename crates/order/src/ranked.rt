// An order that a type has beside its `Ord`, or with none.
ghost use Rattle.std.specs.Prelude.{◌≡◌, refl};
ghost use Rattle.std.specs.declared.cmp.Ordering.{Ordering};
ghost use Rattle.std.specs.Cmp.{on_per, on_equiv, on_po, on_total, po, eq_by_cmp_equiv, partial_equiv_from_equiv};
ghost use Rattle.std.specs.Ordering.{on, eq_by_cmp, as_partial_cmp};
ghost use Rattle.order.specs.Total.{TotalOrder};
ghost use Rattle.order.specs.Orders.{order_by, std_total};

use crate::Order;
use std::cmp::Ordering;

// Values with a total order of their own, by which equal values are one value.
pub trait Ranking: Copy {
    ghost cmp: { Self → Self → Ordering };

    // How the value stands to another.
    fn compare(&self, other: &Self) -> Ordering
        ensures { result ≡ cmp self.now other.now };

    ghost total: { TotalOrder cmp };
}

// A value that is ordered by its ranking, and so goes wherever an `Order` is asked.
#[derive(Clone, Copy)]
pub struct Ranked<T>(pub T);

impl<T: Ranking> PartialEq for Ranked<T> {
    ghost eq = { on (λ r. r.0) (eq_by_cmp T.Ranking.cmp) };

    ghost laws = { on_per (λ r. r.0) (partial_equiv_from_equiv (eq_by_cmp_equiv (std_total T.Ranking.total))) };

    fn eq(&self, other: &Ranked<T>) -> bool {
        self.0.compare(&other.0).is_eq()
    }
}

impl<T: Ranking> Eq for Ranked<T> {
    ghost laws = { on_equiv (λ r. r.0) (eq_by_cmp_equiv (std_total T.Ranking.total)) };
}

impl<T: Ranking> PartialOrd for Ranked<T> {
    ghost partial_cmp = { on (λ r. r.0) (as_partial_cmp T.Ranking.cmp) };

    ghost laws = { on_po (λ r. r.0) (po (std_total T.Ranking.total) (λ x y. refl)) };

    fn partial_cmp(&self, other: &Ranked<T>) -> Option<Ordering> {
        Some(self.0.compare(&other.0))
    }
}

impl<T: Ranking> Ord for Ranked<T> {
    ghost cmp = { on (λ r. r.0) T.Ranking.cmp };

    ghost total = { on_total (λ r. r.0) (std_total T.Ranking.total) };

    ghost matches_partial_cmp = { λ x y. refl };

    ghost matches_eq = { λ x y. refl };

    fn cmp(&self, other: &Ranked<T>) -> Ordering {
        self.0.compare(&other.0)
    }
}

impl<T: Ranking> Order for Ranked<T> {
    ghost total = { order_by T.Ranking.total (λ r. r.0) (λ x y e i. record { 0 = e i }) };
}
