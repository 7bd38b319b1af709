// Two hashes as one.
use crate::hash::GramHash;
use std::marker::PhantomData;

// The values of both hashes, ordered by the first, then the second. Each may be a pair again.
pub struct Pair<A, B>(PhantomData<(A, B)>);

impl<A: GramHash, B: GramHash> GramHash for Pair<A, B> {
    type Value = (A::Value, B::Value);

    ghost value = { λ cs. (A.GramHash.value cs, B.GramHash.value cs) };

    fn of(codes: &[u16]) -> (A::Value, B::Value) {
        (A::of(codes), B::of(codes))
    }

    fn roll(before: (A::Value, B::Value), k: usize, out: u16, next: u16) -> (A::Value, B::Value) {
        (
            A::roll(before.0, k, out, next),
            B::roll(before.1, k, out, next),
        )
    }
}
