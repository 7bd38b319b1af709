// What became of a file.

// How many places of it were chosen, and how many index entries are used then.
#[derive(Clone, Copy, PartialEq, Eq, Debug)]
pub struct Filed {
    pub places: usize,
    pub used: usize,
}

// How many tokens it has, how many places of it were chosen, and how many index entries are used then.
#[derive(Clone, Copy, PartialEq, Eq, Debug)]
pub struct Taken {
    pub len: usize,
    pub places: usize,
    pub prints: usize,
}
