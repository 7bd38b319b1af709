// Taking in a file.
ghost use Rattle.std.specs.Prelude.{◌≡◌, ◌+◌, ◌-◌, ◌<◌, ◌≤◌, length};
ghost use Rattle.prints.specs.Grams.{Coded};
ghost use Rattle.prints.specs.Walk.{winnowed};
ghost use Rattle.runs.specs.Passages.{codes};
ghost use Rattle.model.specs.Calls.{add, added, unless};
ghost use Rattle.library.specs.Stores.{files, Step};
ghost use Rattle.library.specs.Adding.{admit_refusal, Indexed, TakenIn, WorkKept};

use crate::filed::{Filed, Taken};
use crate::store::Store;
use filling::entries::wipe;
use filling::reading::fill;
use filling::writing::{count_prints, write_prints};
use model::answers::Added;
use model::fingerprint::Fingerprint;
use model::refusal::{Reason, Refusal};
use model::table::{Entry, find};
use ordered::batch::insert_all;
use prints::hash::GramHash;
use prints::window::Placed;
use prints::winnowing::Winnowing;
use tokens::source::Source;
use tokens::token::Token;

// Puts a fingerprint for each chosen place of the tokens into the index, of which `used` entries are used. They are counted first, so
// that a refusal leaves every entry as it was.
fn index_file<H: GramHash>(
    index: &mut [Fingerprint<H::Value>],
    used: usize,
    number: u16,
    tokens: &[Token],
    by: Winnowing,
    work: &mut [Placed<H::Value>],
) -> Result<Filed, Refusal>
    requires room { by.w ≤ length work.old }
    requires coded { Coded (codes tokens.now) }
    requires size { length tokens.now ≤ 1048576 }
    requires within { used ≤ length index.old }
    ensures { Indexed H.Value.Ord.cmp (winnowed H.GramHash.value H.Value.Ord.cmp by.k by.w (codes tokens.now)) number used index.old index.new result }
{
    let places = count_prints::<H>(tokens, by, work);
    if index.len() - used < places {
        return Err(Refusal::plain(Reason::IndexFull));
    }
    write_prints::<H>(&mut index[used..], number, tokens, by, work);
    let used = insert_all(index, used, places);
    Ok(Filed { places, used })
}

// Reads the source behind the first `used` tokens, and indexes it, where `prints` entries of the index are used. A refusal leaves those
// tokens and the index as they were. The lists with their counts are parameters, since a method of the store would have to say of each of its
// other fields that it stays.
fn take_in<H: GramHash, S: Source + Drop>(
    tokens: &mut [Token],
    used: usize,
    index: &mut [Fingerprint<H::Value>],
    prints: usize,
    number: u16,
    source: S,
    by: Winnowing,
    work: &mut [Placed<H::Value>],
) -> Result<Taken, Refusal>
    requires room { by.w ≤ length work.old }
    requires size { length tokens.old ≤ 1048576 }
    requires within { (used ≤ length tokens.old) × (prints ≤ length index.old) }
    ensures { TakenIn H.Value.Ord.cmp number (S.Source.tokens source) (S.Source.ending source) (winnowed H.GramHash.value H.Value.Ord.cmp by.k by.w (codes (S.Source.tokens source))) used tokens.old tokens.new prints index.old index.new result }
{
    let len = fill(&mut tokens[used..], source)?;
    let filed = index_file::<H>(index, prints, number, &tokens[used..used + len], by, work)?;
    Ok(Taken {
        len,
        places: filed.places,
        prints: filed.used,
    })
}

impl<H: GramHash> Store<'_, '_, H> {
    ghost use Rattle.library.specs.States.{state};

    // What is asked before the source is read.
    fn admits(&self, number: u16, w: usize, work: usize) -> Result<(), Refusal>
        ensures { result ≡ unless (admit_refusal (files (state self.now)) number w work) tt }
    {
        if number == 0 {
            return Err(Refusal::plain(Reason::NumberZero));
        }
        if find(self.table.as_slice(), number).is_some() {
            return Err(Refusal::plain(Reason::NumberHeld));
        }
        if self.table.is_full() {
            return Err(Refusal::plain(Reason::TooManyFiles));
        }
        if work < w {
            return Err(Refusal::plain(Reason::WorkShort));
        }
        Ok(())
    }

    pub fn add<S: Source + Drop>(
        &mut self,
        number: u16,
        source: S,
        work: &mut [Placed<H::Value>],
    ) -> Result<Added, Refusal>
        ensures step { Step H.GramHash.value H.Value.Ord.cmp (state self.old) (state self.new) (add number (S.Source.tokens source) (S.Source.ending source) (length work.old)) (added result) }
        ensures work { WorkKept result work.old work.new }
    {
        let by = self.plan.winnowing();
        self.admits(number, by.w, work.len())?;
        let used = self.used;
        let prints = self.prints;
        match take_in::<H, S>(
            self.tokens,
            used,
            self.index,
            prints,
            number,
            source,
            by,
            work,
        ) {
            Err(refusal) => {
                wipe(self.tokens, used);
                Err(refusal)
            }
            Ok(file) => {
                self.table.push(Entry {
                    number,
                    len: file.len,
                });
                self.used = used + file.len;
                self.prints = file.prints;
                Ok(Added {
                    tokens: file.len,
                    prints: file.places,
                })
            }
        }
    }
}
