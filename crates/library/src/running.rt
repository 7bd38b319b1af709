// Any list of calls.
ghost use Rattle.std.specs.Prelude.{◌≡◌, ◌≤◌, min, [], map, length, vec_len, vec_capacity, MatchResult};
ghost use Rattle.model.specs.Calls.{asked, shown};
ghost use Rattle.library.specs.Stores.{Step, Steps};
ghost use Rattle.library.specs.Running.{setting_over, Ran};

use crate::library::capped;
use crate::plan::Plan;
use crate::store::Store;
use model::calls::{Answer, Call};
use model::fingerprint::Fingerprint;
use prints::hash::GramHash;
use std::alloc::{AllocError, Global};
use tokens::source::Source;
use tokens::token::Token;

impl<H: GramHash> Store<'_, '_, H> {
    ghost use Rattle.library.specs.States.{state};

    // Makes one call.
    fn make<S: Source + Drop>(&mut self, call: Call<S, H::Value>) -> Answer
        ensures { Step H.GramHash.value H.Value.Ord.cmp (state self.old) (state self.new) (asked S.Source.tokens S.Source.ending call) (shown result) }
    {
        match call {
            Call::Add {
                number,
                source,
                mut work,
            } => Answer::Added(self.add(number, source, work.as_mut_slice())),
            Call::Remove { number } => Answer::Removed(self.remove(number)),
            Call::Held { mut list } => {
                let answer = self.held(list.as_mut_slice());
                Answer::Held(answer, list)
            }
            Call::Report { number, mut list } => {
                let answer = self.report(number, list.as_mut_slice());
                Answer::Reported(answer, list)
            }
        }
    }

    // Makes the calls in their order. There is room for all their answers.
    fn make_all<S: Source + Drop>(
        &mut self,
        calls: Vec<Call<S, H::Value>>,
        answers: &mut Vec<Answer>,
    )
        requires none { (answers.old.items ≡ []) × (vec_len answers.old ≡ 0) }
        requires room { vec_len calls ≤ vec_capacity answers.old }
        ensures tokens { self.new.tokens.ghost_name ≡ self.old.tokens.ghost_name }
        ensures index { self.new.index.ghost_name ≡ self.old.index.ghost_name }
        ensures steps { Steps H.GramHash.value H.Value.Ord.cmp (state self.old) (state self.new) (map (asked S.Source.tokens S.Source.ending) calls.items) (map shown answers.new.items) }
    {
        for call in calls {
            let answer = self.make(call);
            answers.push_reserved(answer);
        }
    }
}

// Opens a library over these lists, and makes the calls.
fn run_over<H: GramHash, S: Source + Drop>(
    plan: Plan<H>,
    tokens: &mut [Token],
    index: &mut [Fingerprint<H::Value>],
    calls: Vec<Call<S, H::Value>>,
    answers: &mut Vec<Answer>,
)
    requires few { (length tokens.old ≤ 1048576) × (length index.old ≤ 1048576) }
    requires none { (answers.old.items ≡ []) × (vec_len answers.old ≡ 0) }
    requires room { vec_len calls ≤ vec_capacity answers.old }
    ensures { Ran (setting_over H.GramHash.value H.Value.Ord.cmp plan.k plan.t (length tokens.old) (length index.old)) (map (asked S.Source.tokens S.Source.ending) calls.items) (map shown answers.new.items) tokens.old tokens.new index.old index.new }
{
    let mut store = Store::<H>::new(plan, tokens, index);
    store.make_all(calls, answers);
}

// Opens a library over the lists, makes the calls in their order, and answers them all. Room for the answers is made first: where memory
// fails, no call is made and neither list is changed.
pub fn run<H: GramHash, S: Source + Drop>(
    heap: Global,
    plan: Plan<H>,
    tokens: &mut [Token],
    index: &mut [Fingerprint<H::Value>],
    calls: Vec<Call<S, H::Value>>,
) -> Result<Vec<Answer>, AllocError>
    ensures { MatchResult result (λ v. Ran (setting_over H.GramHash.value H.Value.Ord.cmp plan.k plan.t (length tokens.old) (length index.old)) (map (asked S.Source.tokens S.Source.ending) calls.items) (map shown v.items) tokens.old tokens.new index.old index.new) (λ _. (tokens.new ≡ tokens.old) × (index.new ≡ index.old)) }
{
    let mut answers = Vec::with_capacity(heap, calls.len())?;
    // The lists are cut as `Library::open` cuts them, which hides the lists and so cannot be called here.
    let room = capped(tokens.len());
    let places = capped(index.len());
    run_over(
        plan,
        &mut tokens[0..room],
        &mut index[0..places],
        calls,
        &mut answers,
    );
    Ok(answers)
}
