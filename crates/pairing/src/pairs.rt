// One fingerprint of the reported file, met with fingerprints of other files.
ghost use Rattle.std.specs.Prelude.{◌≡◌, ◌+◌, ◌≤◌, length};
ghost use Rattle.runs.specs.Shares.{SameGrams};
ghost use Rattle.model.specs.Files.{tokens_of};
ghost use Rattle.model.specs.Passages.{passage, grown, span};
ghost use Rattle.pairing.specs.Groups.{with_each};
ghost use Rattle.pairing.specs.Tallies.{Counted};
ghost use Rattle.pairing.specs.Scopes.{files, held_files};

use crate::held::HeldFiles;
use crate::scope::Scope;
use crate::tally::{ListFull, Tally};
use model::fingerprint::Fingerprint;
use model::passage::{ByteSpan, Passage};
use order::Order;
use ordered::edit::insert;
use ordered::insertion::Insertion;
use runs::longest::Alignment;
use tokens::token::Token;

// The tokens of the file `next`, where `tokens` are those of `file`: only another file is looked up.
fn tokens_next<'a>(held: HeldFiles<'a>, tokens: &'a [Token], file: u16, next: u16) -> &'a [Token]
    requires { tokens.now ≡ tokens_of file (held_files held) }
    ensures { result.now ≡ tokens_of next (held_files held.entry) }
{
    if next == file {
        tokens
    } else {
        held.tokens_or_none(next)
    }
}

// The bytes of the `len` tokens from place `at` on.
fn span(tokens: &[Token], at: usize, len: usize) -> ByteSpan
    requires { (1 ≤ len) × (at + len ≤ length tokens.now) }
    ensures { result ≡ span tokens.now at len }
{
    ByteSpan {
        from: tokens[at].from,
        to: tokens[at + len - 1].to,
    }
}

// The passage around equal grams, the first of the reported file and the second of the file of number `other`.
fn passage_around(other: u16, grams: Alignment<'_>, k: usize) -> Passage
    requires some { 1 ≤ k }
    requires few { (length grams.xs.now ≤ 1048576) × (length grams.ys.now ≤ 1048576) }
    requires same { SameGrams k grams.xs.now grams.ys.now grams.i grams.j }
    ensures { result ≡ passage other grams.entry.xs.now grams.entry.ys.now (grown k grams.entry.xs.now grams.entry.ys.now grams.entry.i grams.entry.j) }
{
    let run = grams.grow(k);
    Passage {
        other,
        left: run.left as u32,
        right: run.right as u32,
        len: run.len as u32,
        here: span(grams.xs, run.left, run.len),
        there: span(grams.ys, run.right, run.len),
    }
}

impl Tally<'_> {
    // Meets a fingerprint of the reported file with each of its partners. The counts saturate, so that no bound on them has to be
    // carried along: an index has far fewer pairs.
    pub fn meet<V: Order>(
        &mut self,
        scope: Scope,
        a: Fingerprint<V>,
        partners: &[Fingerprint<V>],
    ) -> Result<(), ListFull>
        requires { a.file ≡ scope.number }
        ensures same_reference { self.new.list.ghost_name ≡ self.old.list.ghost_name }
        ensures long { length self.new.list.now ≡ length self.old.list.now }
        ensures counted { Counted scope.entry.k (files scope.entry) (with_each a partners.now) self.old.list.now self.old.counts self.new.list.now self.new.counts result }
    {
        let i = a.place as usize;
        let mut file = scope.number;
        let mut other = scope.own;
        for b in partners {
            other = tokens_next(scope.held, other, file, b.file);
            file = b.file;
            self.counts.pairs = self.counts.pairs.saturating_add(1);
            let grams = Alignment {
                xs: scope.own,
                i,
                ys: other,
                j: b.place as usize,
            };
            if !grams.same_grams(scope.k) {
                self.counts.differing = self.counts.differing.saturating_add(1);
                continue;
            }
            let found = passage_around(file, grams, scope.k);
            match insert(self.list, self.counts.passages, found) {
                Insertion::At(_) => self.counts.passages += 1,
                Insertion::Present(_) => {}
                Insertion::Full => return Err(ListFull),
            }
        }
        Ok(())
    }
}
