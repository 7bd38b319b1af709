// The calls on a library as values, so that a list of them can be made.
use crate::answers::{Added, Reported};
use crate::passage::Passage;
use crate::refusal::Refusal;
use prints::window::Placed;

// A call with what it is handed. S is the kind of source, V the kind of hash values.
#[derive(Drop)]
pub enum Call<S, V> {
    Add {
        number: u16,
        source: S,
        work: Vec<Placed<V>>,
    },
    Remove {
        number: u16,
    },
    Held {
        list: Vec<u16>,
    },
    Report {
        number: u16,
        list: Vec<Passage>,
    },
}

// What a call answered, with the list that it was handed to write into.
#[derive(Drop)]
pub enum Answer {
    Added(Result<Added, Refusal>),
    Removed(Result<(), Refusal>),
    Held(Result<usize, Refusal>, Vec<u16>),
    Reported(Result<Reported, Refusal>, Vec<Passage>),
}
