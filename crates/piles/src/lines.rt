// A source's tokens as lines of text.
ghost use Rattle.std.specs.Prelude.{◌≡◌, true, ◌++◌, is_ok, IfOk, if◌then◌else◌};
ghost use Rattle.piles.specs.Lines.{token_line, ending_line, listing, listed};
ghost use Rattle.piles.specs.Piles.{read_as, piled};

use crate::pile::{Layer, Reader, pile};
use columns::push_row;
use std::alloc::{AllocError, Global};
use tokens::source::Source;
use tokens::token::{Fault, Token};

// The columns of each number.
const WIDTH: usize = 8;

fn push_token(out: &mut Vec<u8>, token: &Token) -> Result<(), AllocError>
    ensures { out.new.items ≡ (if is_ok result then out.old.items ++ token_line token.now else out.old.items) }
{
    let numbers = [
        u64::from(token.code),
        u64::from(u8::from(token.class)),
        u64::from(token.from),
        u64::from(token.to),
    ];
    push_row(out, &numbers, WIDTH)
}

fn push_ending(out: &mut Vec<u8>, ending: Option<Fault>) -> Result<(), AllocError>
    ensures { is_ok result ≡ true → out.new.items ≡ out.old.items ++ ending_line ending }
{
    let Some(fault) = ending else {
        return out.extend_from_slice(b"clean\n");
    };
    out.extend_from_slice(b"fault")?;
    let numbers = [
        u64::from(u8::from(fault.cause)),
        u64::from(fault.place),
        u64::from(fault.depth),
    ];
    push_row(out, &numbers, WIDTH)
}

// A line for each token of a source, and one that says how its list ended. It writes as the tokens come: the same walk as
// that of `Collected::of`, but over a `Collected` it would hold all of them first.
pub fn page<S: Source + Drop>(heap: Global, mut source: S) -> Result<Vec<u8>, AllocError>
    ensures { IfOk result (λ v. v.items ≡ listing (S.Source.tokens source) (S.Source.ending source)) }
{
    let mut out = Vec::new(heap);
    while let Ok(Some(token)) = source.next() {
        push_token(&mut out, &token)?;
    }
    push_ending(&mut out, source.next().err())?;
    Ok(out)
}

// The page of what a pile leaves of a file.
pub fn listed(
    heap: Global,
    reader: Reader,
    layers: &[Layer],
    file: &[u8],
) -> Result<Vec<u8>, AllocError>
    ensures { IfOk result (λ v. v.items ≡ listed (piled layers.now (read_as reader file.now))) }
{
    let all = pile(heap, reader, layers, file)?;
    page(heap, all)
}
