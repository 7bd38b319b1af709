// The table of held files.
ghost use Rattle.std.specs.Prelude.{◌≡◌, ℕ, ◌+◌, ◌-◌, ◌^◌, ◌<◌, ◌≤◌, length, MatchOption};
ghost use Rattle.model.specs.Tables.{At, Absent, extent};

// A held file: its number, and how many tokens it has. The tokens of the files lie end to end in the order of the table.
#[derive(Clone, Copy, PartialEq, Eq, Debug, Default)]
pub struct Entry {
    pub number: u16,
    pub len: usize,
}

// Where a file stands: its place in the table, and its tokens from `start` on.
#[derive(Clone, Copy, PartialEq, Eq, Debug)]
pub struct Spot {
    pub slot: usize,
    pub start: usize,
    pub len: usize,
}

// Where the first file of that number stands.
// A loop and no map: the table lies in the library itself, and `start` is the sum of the lengths before.
pub fn find(table: &[Entry], number: u16) -> Option<Spot>
    requires { extent table.now < 2 ^ 64 }
    ensures { MatchOption result (Absent number table.now) (At number table.now) }
{
    let mut start = 0;
    for (slot, entry) in table.iter().enumerate() {
        if entry.number == number {
            return Some(Spot {
                slot,
                start,
                len: entry.len,
            });
        }
        start += entry.len;
    }
    None
}
