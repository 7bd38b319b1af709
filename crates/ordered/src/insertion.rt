// What became of a record that was to be put in: it stands at a place now, it stood there before, or there is no free entry. No `Result`,
// since it is no error that a record stood there before.
#[derive(Clone, Copy, PartialEq, Eq, Debug)]
pub enum Insertion {
    At(usize),
    Present(usize),
    Full,
}
