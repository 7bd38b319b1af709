// A source read into a token list.
ghost use Rattle.filling.specs.Filled.{Filled};

use model::refusal::{Reason, Refusal};
use tokens::source::Source;
use tokens::token::Token;

// Reads the source to its end into the entries of `free`, from the first on, and answers how many tokens it had. By a count and no `for`:
// asking the source may fail, and the count is the answer.
pub fn fill<S: Source + Drop>(free: &mut [Token], mut source: S) -> Result<usize, Refusal>
    ensures { Filled free.old free.new (S.Source.tokens source) (S.Source.ending source) result }
{
    source.lawful();
    let mut n = 0;
    while let Some(token) = source.next()? {
        if n == free.len() {
            return Err(Refusal::plain(Reason::TokensFull));
        }
        free[n] = token;
        n += 1;
    }
    Ok(n)
}
