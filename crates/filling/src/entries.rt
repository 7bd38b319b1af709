// Entries of lent slices: wiped, moved and listed.
ghost use Rattle.std.specs.Prelude.{◌≡◌, ◌+◌, ◌-◌, ◌≤◌, ◌++◌, map, length, take, drop, replicate};
ghost use Rattle.runs.specs.Shares.{unused};

use model::table::Entry;
use tokens::token::Token;

// Leaves no token from `from` on.
pub fn wipe(tokens: &mut [Token], from: usize)
    requires { from ≤ length tokens.old }
    ensures { tokens.new ≡ take from tokens.old ++ replicate (length tokens.old - from) unused }
{
    tokens[from..].fill(Token::default());
}

// Moves the entries from `at + len` up to, without, `end` down by `len`.
pub fn close_gap<T: Copy>(xs: &mut [T], at: usize, len: usize, end: usize)
    requires { (at + len ≤ end) × (end ≤ length xs.old) }
    ensures { xs.new ≡ take at xs.old ++ take (end - (at + len)) (drop (at + len) xs.old) ++ drop (end - len) xs.old }
{
    xs.copy_within(at + len..end, at);
}

// Writes the numbers of a table's files into the first entries of a list.
pub fn write_numbers(table: &[Entry], list: &mut [u16])
    requires { length table.now ≤ length list.old }
    ensures { list.new ≡ map (λ e. e.number) table.now ++ drop (length table.now) list.old }
{
    // by place: of what `iter_mut` leaves, a proof knows no element
    for (i, entry) in table.iter().enumerate() {
        list[i] = entry.number;
    }
}
