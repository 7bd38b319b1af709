// Two token lists side by side: whether they share a gram, and the longest run that holds it.
ghost use Rattle.std.specs.Prelude.{◌≡◌, ◌+◌, ◌≤◌, ◌↔◌, length, take, drop, reverse, IsSome, IfSome, Decides, MatchOption};
ghost use Rattle.std.specs.List.{zip, prefix_len, list_all};
ghost use Rattle.tokens.specs.Tokens.{same};
ghost use Rattle.runs.specs.Shares.{gram_same, SameGrams, SameBefore, SameFrom, TheRun};

use tokens::token::Token;

// A run of `len` tokens, from place `left` of one list and from place `right` of the other.
#[derive(Clone, Copy, PartialEq, Eq, Debug)]
pub struct Run {
    pub left: usize,
    pub right: usize,
    pub len: usize,
}

// Two token lists laid side by side, place i of one beside place j of the other.
#[derive(Clone, Copy)]
pub struct Alignment<'a> {
    pub xs: &'a [Token],
    pub i: usize,
    pub ys: &'a [Token],
    pub j: usize,
}

// The tokens from a place on, none from past the end.
fn rest(tokens: &[Token], at: usize) -> &[Token]
    ensures { result.now ≡ drop at tokens.now }
{
    tokens.get(at..).unwrap_or(&[])
}

// The gram of k tokens at a place, if it is there.
fn gram(tokens: &[Token], at: usize, k: usize) -> Option<&[Token]>
    ensures there { IsSome result ↔ (at + k ≤ length tokens.now) }
    ensures tokens { IfSome result (λ g. g.now ≡ take k (drop at tokens.now)) }
{
    tokens.get(at..at.checked_add(k)?)
}

// Whether each token of one list is the same as its partner in the other, as far as both go.
fn all_same(xs: &[Token], ys: &[Token]) -> bool
    ensures { result ≡ list_all (λ p. same p.0 p.1) (zip xs.now ys.now) }
{
    xs.iter().zip(ys).all(|(x, y)| x.same(y))
}

// How many tokens are the same from the start of two lists on.
fn same_at_start(xs: &[Token], ys: &[Token]) -> usize
    ensures { result ≡ prefix_len (λ p. same p.0 p.1) (zip xs.now ys.now) }
{
    xs.iter().zip(ys).take_while(|(x, y)| x.same(y)).count()
}

// How many tokens are the same from the end of two lists back. A chain beside the other one: one function over both ways would need
// clauses about its iterators' steps.
fn same_at_end(xs: &[Token], ys: &[Token]) -> usize
    ensures { result ≡ prefix_len (λ p. same p.0 p.1) (zip (reverse xs.now) (reverse ys.now)) }
{
    let (xs, ys) = (xs.iter().rev(), ys.iter().rev());
    xs.zip(ys).take_while(|(x, y)| x.same(y)).count()
}

impl Alignment<'_> {
    // Whether the gram of k tokens at i is there, and the one at j, and each token is the same as its partner.
    // It stops at the first two tokens that differ.
    pub fn same_grams(&self, k: usize) -> bool
        ensures test { result ≡ gram_same k self.now.xs.now self.now.ys.now self.now.i self.now.j }
        ensures fact { Decides result (SameGrams k self.now.xs.now self.now.ys.now self.now.i self.now.j) }
    {
        match (gram(self.xs, self.i, k), gram(self.ys, self.j, k)) {
            (Some(left), Some(right)) => all_same(left, right),
            _ => false,
        }
    }

    // How many tokens right before i and j are the same.
    pub fn same_before(&self) -> usize
        requires left { self.now.i ≤ length self.now.xs.now }
        requires right { self.now.j ≤ length self.now.ys.now }
        ensures { SameBefore self.now.xs.now self.now.ys.now self.now.i self.now.j result }
    {
        // as many of each, so that the chain has one end to look for
        let n = self.i.min(self.j);
        same_at_end(&self.xs[self.i - n..self.i], &self.ys[self.j - n..self.j])
    }

    // How many tokens from i and j on are the same, none past an end.
    pub fn same_from(&self) -> usize
        ensures { SameFrom self.now.xs.now self.now.ys.now self.now.i self.now.j result }
    {
        // as many of each, as above
        let (xs, ys) = (rest(self.xs, self.i), rest(self.ys, self.j));
        let n = xs.len().min(ys.len());
        same_at_start(&xs[..n], &ys[..n])
    }

    // The one longest run that holds the equal grams of k tokens at i and at j, both equally far from its starts.
    // Never part of its caller, where the chains' places would be kept in memory and not in registers.
    #[inline(never)]
    pub fn grow(&self, k: usize) -> Run
        requires some { 1 ≤ k }
        requires grams { SameGrams k self.now.xs.now self.now.ys.now self.now.i self.now.j }
        ensures { TheRun k self.now.xs.now self.now.ys.now self.now.i self.now.j result }
    {
        let end = Alignment {
            i: self.i + k,
            j: self.j + k,
            ..*self
        };
        let before = self.same_before();
        let after = end.same_from();
        Run {
            left: self.i - before,
            right: self.j - before,
            len: before + k + after,
        }
    }

    // The same for any two places: nothing where there are no equal grams of k tokens there, or k is 0.
    pub fn run_around(&self, k: usize) -> Option<Run>
        ensures { MatchOption result (1 ≤ k → SameGrams k self.now.xs.now self.now.ys.now self.now.i self.now.j → ⊥) (TheRun k self.now.xs.now self.now.ys.now self.now.i self.now.j) }
    {
        if k > 0 && self.same_grams(k) {
            Some(self.grow(k))
        } else {
            None
        }
    }
}
