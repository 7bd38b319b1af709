// The window queue: of the last values that it took, as many as it has slots, the rightmost of the smallest.
ghost use Rattle.std.specs.Prelude.{◌≡◌, ℕ, ◌<◌, ◌≤◌, length, MatchOption};
ghost use Rattle.prints.specs.Best.{better_of, Whole, Settled};

use order::Order;
use std::cmp::Ordering;

// A value and its place in the row.
#[derive(Clone, Copy, PartialEq, Eq, Debug)]
pub struct Placed<V> {
    pub place: usize,
    pub value: V,
}

// Values come in blocks of one for each slot. The slots hold the values of this block as they came; of the block before, each slot
// that is not yet written over holds the best from its place to that block's end. So a window is the rest of a block and the front of
// the next, and each value is compared three times. The slots are lent, since a walk allocates nothing.
#[derive(Drop)]
pub struct WindowQueue<'a, V> {
    slots: &'a mut [Placed<V>],
    taken: usize,
    // the best of this block's values
    back: Option<Placed<V>>,
    // whether there was a block before; a flag alone, since what it left stands in the slots
    wrapped: bool,
    ghost room: { taken < length slots.now },
}

// Of two values the smaller, and the later of two equal ones. Spelled out, since `min_by` keeps the first of equals.
fn better<V: Order>(earlier: Placed<V>, later: Placed<V>) -> Placed<V>
    ensures { result ≡ better_of V.Ord.cmp earlier later }
{
    match earlier.value.cmp(&later.value) {
        Ordering::Less => earlier,
        _ => later,
    }
}

// The best of a block's values, with one value more.
fn grown<V: Order>(back: Option<Placed<V>>, new: Placed<V>) -> Placed<V>
    ensures { MatchOption back (result ≡ new) (λ m. result ≡ better_of V.Ord.cmp m new) }
{
    back.map_or(new, |back| better(back, new))
}

// From a whole block of values to the best of each one's and those after it.
fn settle<V: Order>(slots: &mut [Placed<V>])
    requires { 0 < length slots.old }
    ensures same { length slots.new ≡ length slots.old }
    ensures best { (at : ℕ → V) (b : ℕ) → Whole V.Ord.cmp at b slots.old → Settled V.Ord.cmp at b slots.new }
{
    let last = slots.len() - 1;
    let mut best = slots[last];
    // by index: of what `iter_mut` leaves, a proof knows no element
    for j in (0..last).rev() {
        best = better(slots[j], best);
        slots[j] = best;
    }
}

impl<'a, V: Order> WindowQueue<'a, V> {
    ghost use Rattle.prints.specs.Choice.{at_place};
    ghost use Rattle.prints.specs.Window.{Holds, Pushed};

    // An empty queue over the first `width` slots.
    pub fn new(slots: &'a mut [Placed<V>], width: usize) -> WindowQueue<'a, V>
        requires { (0 < width) × (width ≤ length slots.old) }
        ensures width { length result.slots.now ≡ width }
        ensures none { (at : ℕ → V) → Holds V.Ord.cmp at 0 result }
    {
        WindowQueue {
            slots: &mut slots[..width],
            taken: 0,
            back: None,
            wrapped: false,
        }
    }

    // Takes the next value of the row, and answers the best of the window that ends with it, once there are enough for one.
    pub fn push(&mut self, new: Placed<V>) -> Option<Placed<V>>
        ensures width { length self.new.slots.now ≡ length self.old.slots.now }
        ensures best { (at : ℕ → V) (n : ℕ) → Holds V.Ord.cmp at n self.old → new ≡ at_place at n → Pushed V.Ord.cmp at n self.new result }
    {
        let back = grown(self.back, new);
        self.slots[self.taken] = new;
        let next = self.taken + 1;
        if next == self.slots.len() {
            settle(self.slots);
            self.taken = 0;
            self.back = None;
            self.wrapped = true;
            return Some(back);
        }
        self.taken = next;
        self.back = Some(back);
        if self.wrapped {
            Some(better(self.slots[next], back))
        } else {
            None
        }
    }
}
