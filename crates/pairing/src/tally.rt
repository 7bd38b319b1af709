// What a report has found so far.
ghost use Rattle.std.specs.Prelude.{◌≡◌, ◌≤◌, length, take};
ghost use Rattle.order.specs.Listed.{Rising};
ghost use Rattle.ordered.specs.Rises.{rising_prop};
ghost use Rattle.model.specs.Passages.{by_eight};

use model::answers::Reported;
use model::passage::Passage;

// The first entries of the report's list are the passages, how many `counts` says, and rise; the others are free. The list stands here
// itself and in no `OrderedList`, since what a list in a struct in a struct holds when these end is not known to who lent it.
// Its methods say that the list is as long as before and the one that was lent. No ghost field can: it sees one state alone.
#[derive(Drop)]
pub struct Tally<'a> {
    pub list: &'a mut [Passage],
    pub counts: Reported,
    ghost room: { counts.passages ≤ length list.now },
    ghost rises: { Rising by_eight (take counts.passages list.now) } by { rising_prop by_eight (take counts.passages list.now) },
}

// The list has no free entry for a passage.
#[derive(Clone, Copy, PartialEq, Eq, Debug)]
pub struct ListFull;

impl<'a> Tally<'a> {
    ghost use Rattle.pairing.specs.Tallies.{no_counts};

    // Nothing is found yet.
    pub fn new(list: &'a mut [Passage]) -> Tally<'a>
        ensures same_reference { result.list.ghost_name ≡ list.entry.ghost_name }
        ensures list { result.list.now ≡ list.old }
        ensures counts { result.counts ≡ no_counts }
    {
        Tally {
            list,
            counts: Reported::default(),
        }
    }
}
