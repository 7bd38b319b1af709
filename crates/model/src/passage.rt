// A passage, as a report lists it.
ghost use Rattle.std.specs.Prelude.{◌≡◌};
ghost use Rattle.model.specs.Passages.{no_passage, by_eight};
ghost use Rattle.model.specs.Totals.{eight_total};

use order::Order;

// The bytes of a file from `from` up to, without, `to`.
#[derive(Clone, Copy, PartialEq, Eq, PartialOrd, Ord, Debug, Default)]
pub struct ByteSpan {
    pub from: u32,
    pub to: u32,
}

// `len` tokens from token `left` of the reported file on are those from token `right` of the file `other` on. `here` are their bytes
// in the reported file, `there` those in the other. The default is an entry of a report list that holds no passage.
#[derive(Clone, Copy, PartialEq, Eq, PartialOrd, Ord, Debug, Default)]
pub struct Passage {
    pub other: u16,
    pub left: u32,
    pub right: u32,
    pub len: u32,
    pub here: ByteSpan,
    pub there: ByteSpan,
}

impl Passage {
    // An entry of a report list that holds no passage.
    pub fn none() -> Passage
        ensures { result ≡ no_passage }
    {
        Passage::default()
    }
}

// The derived order goes by the eight fields, from the first on.
pub fn passage_order()
    ensures { (x y : Passage) → ⟦<Passage as Ord>⟧.cmp x y ≡ by_eight x y }
{}

// Passages rise by their eight fields.
impl Order for Passage {
    ghost total = { eight_total };
}
