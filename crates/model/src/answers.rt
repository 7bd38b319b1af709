// What granted calls answer.

// The counts of a granted Add: the file's tokens, and its chosen places.
#[derive(Clone, Copy, PartialEq, Eq, Debug)]
pub struct Added {
    pub tokens: usize,
    pub prints: usize,
}

// The counts of a granted Report: passages, pairs compared, and those of them whose grams differ.
#[derive(Clone, Copy, PartialEq, Eq, Debug, Default)]
pub struct Reported {
    pub passages: usize,
    pub pairs: u64,
    pub differing: u64,
}
