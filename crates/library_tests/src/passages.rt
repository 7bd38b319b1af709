// Which passages are reported.
use crate::common::*;
use layers::case::Case;
use layers::dropping::DropClass;
use library::library::Library;
use prints::cyclic::CyclicShift;
use prints::hash::GramHash;
use prints::pair::Pair;
use prints::polynomial::Polynomial;
use std::alloc::{AllocError, Global};
use std::process::Abort;
use std::test::Fail;
use tokens::collected::Collected;
use tokens::prose::Prose;
use tokens::source::Source;
use tokens::token::{Class, Token};

// Prose without blanks and in small letters.
fn letters(file: &[u8]) -> Case<DropClass<Prose<'_>>> {
    Case::over(DropClass::over(Prose::new(file), 1))
}

fn refrain_in(
    rt: &impl Abort,
    heap: Global,
    library: &mut Library<'_, '_, Polynomial>,
) -> Result<(), Fail> {
    add(rt, heap, library, 1, letters(b"A do run run run"), [12, 5])?;
    add(rt, heap, library, 2, letters(b"Can do run run!"), [12, 4])?;
    let first = [[2, 1, 3, 8, 2, 12, 4, 14], [2, 6, 5, 6, 9, 16, 7, 14]];
    assert_eq!(rt; reports(rt, heap, library, 1, &first)?, [4, 0]);
    let second = [[1, 3, 1, 8, 4, 14, 2, 12], [1, 5, 6, 6, 7, 14, 9, 16]];
    assert_eq!(rt; reports(rt, heap, library, 2, &second)?, [4, 0]);
    Ok(())
}

#[test]
fn a_refrain_is_reported_from_both_sides(rt: HostRuntime) -> Result<(), Fail> {
    let heap = rt.alloc();
    let mut tokens = token_list(heap, 4096)?;
    let mut index = index_list::<Polynomial>(heap, 4096)?;
    let plan = plan::<Polynomial>(3, 5)?;
    let mut library = Library::open(plan, tokens.as_mut_slice(), index.as_mut_slice());
    refrain_in(&rt, heap, &mut library)
}

// Puts n bytes of filler behind a file, drawn from the alphabet in no order. Three lines, and so no crate for this generator and that of
// other tests.
fn fill(file: &mut Vec<u8>, alphabet: &[u8; 16], n: usize) -> Result<(), AllocError> {
    let mut state = 1u64;
    for _ in 0..n {
        state = state
            .wrapping_mul(6364136223846793005)
            .wrapping_add(1442695040888963407);
        file.push(alphabet[(state >> 60) as usize])?;
    }
    Ok(())
}

// 6,000 bytes, 40 of which stand from `at` on and are not of the alphabet.
fn with_stretch(
    rt: &impl Abort,
    heap: Global,
    alphabet: &[u8; 16],
    at: usize,
) -> Result<Vec<u8>, Fail> {
    let mut file = Vec::new(heap);
    fill(&mut file, alphabet, at)?;
    file.extend_from_slice(b"THE QUICK BROWN FOX JUMPS OVER LAZY DOGS")?;
    fill(&mut file, alphabet, 5960usize.saturating_sub(at))?;
    assert_eq!(rt; file.len(), 6000);
    Ok(file)
}

// The two alphabets have no byte in common, so that nothing but the stretch is shared.
fn stretch_in(
    rt: &impl Abort,
    heap: Global,
    library: &mut Library<'_, '_, Polynomial>,
) -> Result<(), Fail> {
    let first = with_stretch(rt, heap, b"abcdefghijklmnop", 4079)?;
    add(
        rt,
        heap,
        library,
        1,
        Prose::new(first.as_slice()),
        [6000, 1702],
    )?;
    let second = with_stretch(rt, heap, b"0123456789+-*/<>", 1234)?;
    add(
        rt,
        heap,
        library,
        2,
        Prose::new(second.as_slice()),
        [6000, 1698],
    )?;
    let passage = [2, 4079, 1234, 40, 4079, 4119, 1234, 1274];
    assert_eq!(rt; reports(rt, heap, library, 1, &[passage])?, [9, 0]);
    Ok(())
}

#[test]
fn a_stretch_across_byte_4096_is_found_whole(rt: HostRuntime) -> Result<(), Fail> {
    let heap = rt.alloc();
    let mut tokens = token_list(heap, 12_000)?;
    let mut index = index_list::<Polynomial>(heap, 12_000)?;
    let plan = plan::<Polynomial>(5, 10)?;
    let mut library = Library::open(plan, tokens.as_mut_slice(), index.as_mut_slice());
    stretch_in(&rt, heap, &mut library)
}

fn pairs_in<H: GramHash, S: Source + Drop>(
    rt: &impl Abort,
    heap: Global,
    library: &mut Library<'_, '_, H>,
    first: S,
    second: S,
) -> Result<[u64; 2], Fail> {
    take_in(heap, library, 1, first)?;
    take_in(heap, library, 2, second)?;
    reports(rt, heap, library, 1, &[])
}

// How many pairs two files have, and how many of them differ, where they share no passage.
fn pairs<H: GramHash, S: Source + Drop>(
    rt: &impl Abort,
    heap: Global,
    k: usize,
    first: S,
    second: S,
) -> Result<[u64; 2], Fail> {
    let mut tokens = token_list(heap, 12)?;
    let mut index = index_list::<H>(heap, 2)?;
    let plan = plan::<H>(k, k)?;
    let mut library = Library::open(plan, tokens.as_mut_slice(), index.as_mut_slice());
    pairs_in(rt, heap, &mut library, first, second)
}

// Two tokens of these codes. A macro, so that the codes are known where the list is proved to be well placed.
macro_rules! two_made {
    ($heap:expr, $first:expr, $second:expr) => {
        Collected {
            list: vec![
                in $heap;
                Token { code: $first, class: Class::Made, from: 0, to: 1 },
                Token { code: $second, class: Class::Made, from: 1, to: 2 },
            ]?
            .into_iter(),
            ending: None,
            depth: 0,
        }
    };
}

// 2 × 1000 + 1 is 1 × 1000 + 1001.
#[test]
fn grams_that_collide_are_counted_and_not_reported(rt: HostRuntime) -> Result<(), Fail> {
    let heap = rt.alloc();
    let first = two_made!(heap, 2, 1);
    let second = two_made!(heap, 1, 1001);
    assert_eq!(rt;
        pairs::<Polynomial, Collected>(&rt, heap, 2, first, second)?,
        [1, 1]
    );
    Ok(())
}

// The two words have the same value by the polynomial hash.
fn pairs_of_words<H: GramHash>(rt: &impl Abort, heap: Global) -> Result<[u64; 2], Fail> {
    pairs::<H, Prose<'_>>(rt, heap, 6, Prose::new(b"abbeys"), Prose::new(b"wagucn"))
}

#[test]
fn words_that_collide_by_one_hash_do_not_by_two(rt: HostRuntime) -> Result<(), Fail> {
    let heap = rt.alloc();
    assert_eq!(rt; pairs_of_words::<Polynomial>(&rt, heap)?, [1, 1]);
    assert_eq!(rt; pairs_of_words::<CyclicShift>(&rt, heap)?, [0, 0]);
    assert_eq!(rt;
        pairs_of_words::<Pair<Polynomial, CyclicShift>>(&rt, heap)?,
        [0, 0]
    );
    Ok(())
}

fn copies_in<H: GramHash>(
    rt: &impl Abort,
    heap: Global,
    library: &mut Library<'_, '_, H>,
) -> Result<(), Fail> {
    take_in(heap, library, 1, Prose::new(b"<abcdefgh><ijklmnop>"))?;
    take_in(heap, library, 2, Prose::new(b"(ijklmnop)(abcdefgh)"))?;
    let passages = [[2, 1, 11, 8, 1, 9, 11, 19], [2, 11, 1, 8, 11, 19, 1, 9]];
    let [_, differing] = reports(rt, heap, library, 1, &passages)?;
    assert_eq!(rt; differing, 0);
    Ok(())
}

// Two copies of t tokens each are reported.
fn copies_are_found<H: GramHash>(rt: &impl Abort, heap: Global) -> Result<(), Fail> {
    let mut tokens = token_list(heap, 100)?;
    let mut index = index_list::<H>(heap, 100)?;
    let plan = plan::<H>(4, 8)?;
    let mut library = Library::open(plan, tokens.as_mut_slice(), index.as_mut_slice());
    copies_in(rt, heap, &mut library)
}

#[test]
fn every_hash_finds_copies_of_t_tokens(rt: HostRuntime) -> Result<(), Fail> {
    let heap = rt.alloc();
    copies_are_found::<Polynomial>(&rt, heap)?;
    copies_are_found::<CyclicShift>(&rt, heap)?;
    copies_are_found::<Pair<Polynomial, CyclicShift>>(&rt, heap)
}
