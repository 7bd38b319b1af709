// Lists to lend to a library, and what it answers as numbers.
use library::library::Library;
use library::plan::Plan;
use model::fingerprint::Fingerprint;
use model::passage::{ByteSpan, Passage};
use model::refusal::Refusal;
use prints::hash::GramHash;
use prints::polynomial::Polynomial;
use prints::window::Placed;
use std::alloc::{AllocError, Global};
use std::process::Abort;
use std::test::Fail;
use tokens::prose::Prose;
use tokens::source::Source;
use tokens::token::{Class, Token};

pub fn plan<H>(k: usize, t: usize) -> Result<Plan<H>, Fail> {
    Plan::new(k, t).map_err(|_| Fail::new("the plan is refused"))
}

// What a lent list holds before is free.
pub fn token_list(heap: Global, n: usize) -> Result<Vec<Token>, AllocError> {
    let any = Token {
        code: 9,
        class: Class::Mark,
        from: 8,
        to: 9,
    };
    vec![in heap; any; n]
}

// A value to fill a list with.
fn any_value<H: GramHash>() -> H::Value {
    H::of(&[1])
}

pub fn index_list<H: GramHash>(
    heap: Global,
    n: usize,
) -> Result<Vec<Fingerprint<H::Value>>, AllocError> {
    let any = Fingerprint {
        value: any_value::<H>(),
        file: 0,
        place: 0,
    };
    vec![in heap; any; n]
}

pub fn work_list<H: GramHash>(heap: Global, n: usize) -> Result<Vec<Placed<H::Value>>, AllocError> {
    let any = Placed {
        place: 7,
        value: any_value::<H>(),
    };
    vec![in heap; any; n]
}

pub fn passage_list(heap: Global, n: usize) -> Result<Vec<Passage>, AllocError> {
    let bytes = ByteSpan { from: 5, to: 6 };
    let any = Passage {
        other: 1,
        left: 2,
        right: 3,
        len: 4,
        here: bytes,
        there: bytes,
    };
    vec![in heap; any; n]
}

// Reason, place and depth of a refusal, and zeros of another answer. Zeros and no `Option`, so that the cases are rows of numbers.
pub fn refusal<T: Drop>(answer: Result<T, Refusal>) -> [u32; 3] {
    match answer {
        Ok(_) => [0; 3],
        Err(refusal) => [
            u32::from(u8::from(refusal.reason)),
            refusal.place,
            u32::from(refusal.depth),
        ],
    }
}

// What a call is granted.
pub fn granted<T: Drop>(answer: Result<T, Refusal>) -> Result<T, Fail> {
    answer.map_err(|refusal| {
        let number = u8::from(refusal.reason);
        Fail::new(format_args!("refused by {number}"))
    })
}

// Takes in a file, with as large a work list as any plan wants, and answers how many tokens and chosen places it has.
pub fn take_in<H: GramHash, S: Source + Drop>(
    heap: Global,
    library: &mut Library<'_, '_, H>,
    number: u16,
    source: S,
) -> Result<[usize; 2], Fail> {
    let mut work = work_list::<H>(heap, 256)?;
    let added = granted(library.add(number, source, work.as_mut_slice()))?;
    Ok([added.tokens, added.prints])
}

// Takes in a file of so many tokens and chosen places.
pub fn add<H: GramHash, S: Source + Drop>(
    rt: &impl Abort,
    heap: Global,
    library: &mut Library<'_, '_, H>,
    number: u16,
    source: S,
    counts: [usize; 2],
) -> Result<(), Fail> {
    assert_eq!(rt; take_in(heap, library, number, source)?, counts);
    Ok(())
}

// Takes in the files 1 to 64, each of three tokens, two that all share and one of its own.
pub fn add_64(
    rt: &impl Abort,
    heap: Global,
    library: &mut Library<'_, '_, Polynomial>,
) -> Result<(), Fail> {
    for number in 1..65u8 {
        let file = [b'a', b'b', number];
        add(
            rt,
            heap,
            library,
            u16::from(number),
            Prose::new(&file),
            [3, 2],
        )?;
    }
    Ok(())
}

// The numbers from `from` up to, without, `to`, without one of them; 0, which no file has, leaves out none.
pub fn all_but(heap: Global, from: u16, to: u16, without: u16) -> Result<Vec<u16>, Fail> {
    Ok(
        (from..to)
            .filter(|number| *number != without)
            .collect(heap)?,
    )
}

// That these and no others are held, in this order.
pub fn holds<H: GramHash>(
    rt: &impl Abort,
    heap: Global,
    library: &Library<'_, '_, H>,
    numbers: &[u16],
) -> Result<(), Fail> {
    let mut list = vec![in heap; 7u16; numbers.len()]?;
    let count = granted(library.held(list.as_mut_slice()))?;
    assert_eq!(rt; count, numbers.len());
    assert!(rt; list.as_slice() == numbers, "the held numbers");
    Ok(())
}

// Other, left, right and len of a passage, and its bytes here and there. As a row, which is shorter to read than a `Passage` with its
// names.
pub fn numbers(passage: &Passage) -> [u32; 8] {
    [
        u32::from(passage.other),
        passage.left,
        passage.right,
        passage.len,
        passage.here.from,
        passage.here.to,
        passage.there.from,
        passage.there.to,
    ]
}

pub fn passages_are(rt: &impl Abort, list: &[Passage], passages: &[[u32; 8]]) -> Result<(), Fail> {
    assert_eq!(rt; list.len(), passages.len());
    for (got, want) in list.iter().zip(passages.iter()) {
        assert_eq!(rt; numbers(got), *want);
    }
    Ok(())
}

// That a report has these passages and no others; the answer is how many pairs there are, and how many of them differ.
pub fn reports<H: GramHash>(
    rt: &impl Abort,
    heap: Global,
    library: &Library<'_, '_, H>,
    number: u16,
    passages: &[[u32; 8]],
) -> Result<[u64; 2], Fail> {
    let mut list = passage_list(heap, passages.len())?;
    let counts = granted(library.report(number, list.as_mut_slice()))?;
    assert_eq!(rt; counts.passages, passages.len());
    passages_are(rt, list.as_slice(), passages)?;
    Ok([counts.pairs, counts.differing])
}
