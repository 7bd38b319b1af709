// The report of one held file.
ghost use Rattle.std.specs.Prelude.{◌≡◌, ◌≤◌, length, replicate, MatchResult};
ghost use Rattle.order.specs.Listed.{In, Rising};
ghost use Rattle.model.specs.declared.fingerprint.Fingerprint.{Fingerprint};
ghost use Rattle.model.specs.Files.{known};
ghost use Rattle.model.specs.Prints.{by_fields};
ghost use Rattle.model.specs.Indexes.{index_pairs};
ghost use Rattle.model.specs.Passages.{no_passage};
ghost use Rattle.model.specs.Calls.{reported, pairs_outcome};
ghost use Rattle.pairing.specs.Groups.{crossed, group_pairs};
ghost use Rattle.pairing.specs.Tallies.{no_counts, Counted, Tallied, Overfull};
ghost use Rattle.pairing.specs.Scopes.{files, held_files};

use crate::groups::{first_group, others_first, own_first};
use crate::held::HeldFiles;
use crate::scope::Scope;
use crate::tally::{ListFull, Tally};
use model::answers::Reported;
use model::fingerprint::Fingerprint;
use model::passage::Passage;
use model::refusal::{Reason, Refusal};
use order::Order;

impl Tally<'_> {
    // Meets each of the reported file's fingerprints with those before them and after them.
    fn meet_all<V: Order>(
        &mut self,
        scope: Scope,
        before: &[Fingerprint<V>],
        own: &[Fingerprint<V>],
        after: &[Fingerprint<V>],
    ) -> Result<(), ListFull>
        requires { (x : Fingerprint V) → In x own.now → x.file ≡ scope.number }
        ensures same_reference { self.new.list.ghost_name ≡ self.old.list.ghost_name }
        ensures long { length self.new.list.now ≡ length self.old.list.now }
        ensures counted { Counted scope.entry.k (files scope.entry) (crossed before.now own.now after.now) self.old.list.now self.old.counts self.new.list.now self.new.counts result }
    {
        for a in own {
            self.meet(scope, *a, before)?;
            self.meet(scope, *a, after)?;
        }
        Ok(())
    }

    // Meets the reported file's fingerprints of a group of one value with the others of the group. As the group rises by file,
    // they stand together in it.
    fn meet_group<V: Order>(
        &mut self,
        scope: Scope,
        group: &[Fingerprint<V>],
    ) -> Result<(), ListFull>
        ensures same_reference { self.new.list.ghost_name ≡ self.old.list.ghost_name }
        ensures long { length self.new.list.now ≡ length self.old.list.now }
        ensures counted { Counted scope.entry.k (files scope.entry) (group_pairs scope.entry.number group.now) self.old.list.now self.old.counts self.new.list.now self.new.counts result }
    {
        let low = others_first(group, scope.number);
        let high = low + own_first(&group[low..], scope.number);
        self.meet_all(scope, &group[0..low], &group[low..high], &group[high..])
    }

    // Walks over the index, group by group. By places, and no `for` over `chunk_by`: of slices of a generic record, which that hands out,
    // the check can't state such a loop.
    // That the index rises is a premise here, since the store that lends it does not know it; the library's invariant does.
    fn walk<V: Order>(&mut self, scope: Scope, index: &[Fingerprint<V>]) -> Result<(), ListFull>
        ensures same_reference { self.new.list.ghost_name ≡ self.old.list.ghost_name }
        ensures long { length self.new.list.now ≡ length self.old.list.now }
        ensures counted { Rising (by_fields V.Ord.cmp) index.now → Counted scope.entry.k (files scope.entry) (index_pairs V.Ord.cmp scope.entry.number index.now) self.old.list.now self.old.counts self.new.list.now self.new.counts result }
    {
        let mut at = 0;
        while at < index.len() {
            let end = at + first_group(&index[at..]);
            self.meet_group(scope, &index[at..end])?;
            at = end;
        }
        Ok(())
    }
}

// The counts of the passages that are written into the list.
fn counted<V: Order>(
    scope: Scope,
    index: &[Fingerprint<V>],
    list: &mut [Passage],
) -> Result<Reported, ListFull>
    ensures long { length list.new ≡ length list.old }
    ensures counted { Rising (by_fields V.Ord.cmp) index.now → MatchResult result (Tallied scope.entry.k (files scope.entry) (index_pairs V.Ord.cmp scope.entry.number index.now) list.old no_counts list.new) (λ _. Overfull scope.entry.k (files scope.entry) (index_pairs V.Ord.cmp scope.entry.number index.now) list.old no_counts) }
{
    let mut tally = Tally::new(list);
    tally.walk(scope, index)?;
    Ok(tally.counts)
}

// Leaves no passage in the list.
fn clear(list: &mut [Passage])
    ensures { list.new ≡ replicate (length list.old) no_passage }
{
    list.fill(Passage::default());
}

// Writes the passages of the file of that number with all other files into the list, rising, and counts its pairs. Behind the passages,
// and where the report is refused, the list has no passage.
pub fn report<V: Order>(
    held: HeldFiles<'_>,
    index: &[Fingerprint<V>],
    number: u16,
    k: usize,
    list: &mut [Passage],
) -> Result<Reported, Refusal>
    requires few { length index.now ≤ 1048576 }
    requires some { 1 ≤ k }
    ensures long { length list.new ≡ length list.old }
    ensures outcome { Rising (by_fields V.Ord.cmp) index.now → reported result list.new ≡ pairs_outcome (known number (held_files held.entry)) k (held_files held.entry) (index_pairs V.Ord.cmp number index.now) (length list.old) }
{
    clear(list);
    let Some(own) = held.tokens_of(number) else {
        return Err(Refusal::plain(Reason::ReportUnheld));
    };
    let scope = Scope {
        held,
        number,
        own,
        k,
    };
    match counted(scope, index, list) {
        Ok(counts) => Ok(counts),
        Err(ListFull) => {
            clear(list);
            Err(Refusal::plain(Reason::ReportFull))
        }
    }
}
