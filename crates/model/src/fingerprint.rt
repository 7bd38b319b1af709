// A fingerprint of a held file.
ghost use Rattle.std.specs.Prelude.{◌≡◌};
ghost use Rattle.model.specs.Prints.{by_fields};
ghost use Rattle.model.specs.Totals.{fields_total};

use order::Order;

// A chosen place of the file of a number, with its value. The index holds these, and rises by the fields in this order.
#[derive(Clone, Copy, PartialEq, Eq, PartialOrd, Ord, Debug)]
pub struct Fingerprint<V> {
    pub value: V,
    pub file: u16,
    pub place: u32,
}

// The derived order goes by the fields in turn.
pub fn fingerprint_order<V: Order>()
    ensures { (x y : Fingerprint V) → ⟦<Fingerprint<V> as Ord>⟧.cmp x y ≡ by_fields V.Ord.cmp x y }
{}

impl<V: Order> Order for Fingerprint<V> {
    ghost total = { fields_total V.Order.total };
}
