// Every refusal by its number, in the order of the conditions, and what it leaves.
use crate::common::*;
use layers::case::Case;
use layers::names::Names;
use library::library::Library;
use prints::polynomial::Polynomial;
use std::alloc::Global;
use std::process::Abort;
use std::test::Fail;
use tokens::prose::Prose;
use tokens::source::Source;

// That prose with a work list of so many entries is refused so. What is refused before the source is read leaves the list.
fn add_is(
    rt: &impl Abort,
    heap: Global,
    library: &mut Library<'_, '_, Polynomial>,
    number: u16,
    file: &[u8],
    entries: usize,
    want: [u32; 3],
) -> Result<(), Fail> {
    let mut work = work_list::<Polynomial>(heap, entries)?;
    let answer = refusal(library.add(number, Prose::new(file), work.as_mut_slice()));
    assert_eq!(rt; answer, want);
    if let [21..=24, _, _] = answer {
        for entry in work.iter() {
            assert!(rt; entry.place == 7 && entry.value == 1, "the work list");
        }
    }
    Ok(())
}

// Four of 8 tokens and two of 3 index entries are used, and a window has two values.
fn adds_in(
    rt: &impl Abort,
    heap: Global,
    library: &mut Library<'_, '_, Polynomial>,
) -> Result<(), Fail> {
    add(rt, heap, library, 1, Prose::new(b"abcd"), [4, 2])?;
    let cases: [(u16, &[u8], usize, [u32; 3]); 9] = [
        (0, b"wxy", 1, [21, 0, 0]),
        (1, b"wxy", 1, [22, 0, 0]),
        (2, b"wxy", 1, [24, 0, 0]),
        (2, b"vwxyz", 1, [24, 0, 0]),
        (2, b"vwxyz", 2, [25, 0, 0]),
        (2, b"vwxyz\0", 2, [25, 0, 0]),
        (2, b"wxyz\0", 2, [2, 4, 0]),
        (2, b"wxyz", 2, [26, 0, 0]),
        (2, b"wxy", 2, [0, 0, 0]),
    ];
    for (number, file, entries, want) in cases {
        holds(rt, heap, library, &[1])?;
        add_is(rt, heap, library, number, file, entries, want)?;
    }
    holds(rt, heap, library, &[1, 2])
}

#[test]
fn the_first_condition_that_is_met_refuses_an_add(rt: HostRuntime) -> Result<(), Fail> {
    let heap = rt.alloc();
    let mut tokens = token_list(heap, 8)?;
    let mut index = index_list::<Polynomial>(heap, 3)?;
    let plan = plan::<Polynomial>(2, 3)?;
    let mut library = Library::open(plan, tokens.as_mut_slice(), index.as_mut_slice());
    adds_in(&rt, heap, &mut library)
}

fn add_to_64(
    rt: &impl Abort,
    heap: Global,
    library: &mut Library<'_, '_, Polynomial>,
) -> Result<(), Fail> {
    add_64(rt, heap, library)?;
    let cases = [(0, 1, 21), (64, 1, 22), (65, 1, 23), (65, 0, 23)];
    for (number, entries, reason) in cases {
        add_is(rt, heap, library, number, b"wxy", entries, [reason, 0, 0])?;
    }
    holds(rt, heap, library, all_but(heap, 1, 65, 0)?.as_slice())
}

#[test]
fn no_file_is_added_to_64(rt: HostRuntime) -> Result<(), Fail> {
    let heap = rt.alloc();
    let mut tokens = token_list(heap, 200)?;
    let mut index = index_list::<Polynomial>(heap, 200)?;
    let plan = plan::<Polynomial>(2, 2)?;
    let mut library = Library::open(plan, tokens.as_mut_slice(), index.as_mut_slice());
    add_to_64(&rt, heap, &mut library)
}

// The refusal of a source by a library that holds nothing, and holds nothing afterwards.
fn refusal_of<S: Source + Drop>(
    rt: &impl Abort,
    heap: Global,
    source: S,
) -> Result<[u32; 3], Fail> {
    let mut tokens = token_list(heap, 8)?;
    let mut index = index_list::<Polynomial>(heap, 8)?;
    let mut work = work_list::<Polynomial>(heap, 2)?;
    let plan = plan::<Polynomial>(2, 3)?;
    let mut library = Library::open(plan, tokens.as_mut_slice(), index.as_mut_slice());
    let answer = refusal(library.add(1, source, work.as_mut_slice()));
    holds(rt, heap, &library, &[])?;
    Ok(answer)
}

#[test]
fn a_fault_is_handed_on_with_its_place_and_depth(rt: HostRuntime) -> Result<(), Fail> {
    let heap = rt.alloc();
    assert_eq!(rt; refusal_of(&rt, heap, Prose::new(b"ab\0"))?, [2, 2, 0]);
    let file = vec![in heap; b'x'; 1_048_577]?;
    assert_eq!(rt;
        refusal_of(&rt, heap, Prose::new(file.as_slice()))?,
        [1, 0, 0]
    );
    let name = vec![in heap; b'n'; 256]?;
    let names = Names::over(Case::over(Prose::new(name.as_slice())));
    assert_eq!(rt; refusal_of(&rt, heap, names)?, [4, 0, 2]);
    Ok(())
}

fn removes_in(
    rt: &impl Abort,
    heap: Global,
    library: &mut Library<'_, '_, Polynomial>,
) -> Result<(), Fail> {
    add(rt, heap, library, 1, Prose::new(b"ab"), [2, 1])?;
    for (number, reason) in [(0, 31), (2, 31), (1, 0), (1, 31)] {
        assert_eq!(rt; refusal(library.remove(number)), [reason, 0, 0]);
    }
    holds(rt, heap, library, &[])
}

#[test]
fn what_is_not_held_is_not_removed(rt: HostRuntime) -> Result<(), Fail> {
    let heap = rt.alloc();
    let mut tokens = token_list(heap, 8)?;
    let mut index = index_list::<Polynomial>(heap, 8)?;
    let plan = plan::<Polynomial>(2, 2)?;
    let mut library = Library::open(plan, tokens.as_mut_slice(), index.as_mut_slice());
    removes_in(&rt, heap, &mut library)
}

// That a report into a list of so many entries is refused so, and leaves zeros.
fn report_is(
    rt: &impl Abort,
    heap: Global,
    library: &Library<'_, '_, Polynomial>,
    number: u16,
    entries: usize,
    reason: u32,
) -> Result<(), Fail> {
    let mut list = passage_list(heap, entries)?;
    let answer = refusal(library.report(number, list.as_mut_slice()));
    assert_eq!(rt; answer, [reason, 0, 0]);
    for passage in list.iter() {
        assert_eq!(rt; numbers(passage), [0; 8]);
    }
    Ok(())
}

fn reports_in(
    rt: &impl Abort,
    heap: Global,
    library: &mut Library<'_, '_, Polynomial>,
) -> Result<(), Fail> {
    add(rt, heap, library, 1, Prose::new(b"ab"), [2, 1])?;
    add(rt, heap, library, 2, Prose::new(b"ab.ab"), [5, 4])?;
    for (number, entries, reason) in [(0, 3, 41), (3, 0, 41), (1, 1, 42)] {
        report_is(rt, heap, library, number, entries, reason)?;
    }
    let passages = [[2, 0, 0, 2, 0, 2, 0, 2], [2, 0, 3, 2, 0, 2, 3, 5]];
    assert_eq!(rt; reports(rt, heap, library, 1, &passages)?, [2, 0]);
    Ok(())
}

#[test]
fn a_refused_report_leaves_zeros(rt: HostRuntime) -> Result<(), Fail> {
    let heap = rt.alloc();
    let mut tokens = token_list(heap, 8)?;
    let mut index = index_list::<Polynomial>(heap, 8)?;
    let plan = plan::<Polynomial>(2, 2)?;
    let mut library = Library::open(plan, tokens.as_mut_slice(), index.as_mut_slice());
    reports_in(&rt, heap, &mut library)
}

fn held_in(
    rt: &impl Abort,
    heap: Global,
    library: &mut Library<'_, '_, Polynomial>,
) -> Result<(), Fail> {
    for number in [9, 300, 2] {
        add(rt, heap, library, number, Prose::new(b"ab"), [2, 1])?;
    }
    let mut list = [7; 2];
    assert_eq!(rt; refusal(library.held(&mut list)), [61, 0, 0]);
    assert_eq!(rt; list, [0, 0]);
    holds(rt, heap, library, &[9, 300, 2])
}

#[test]
fn a_refused_list_of_the_held_is_left_in_zeros(rt: HostRuntime) -> Result<(), Fail> {
    let heap = rt.alloc();
    let mut tokens = token_list(heap, 8)?;
    let mut index = index_list::<Polynomial>(heap, 8)?;
    let plan = plan::<Polynomial>(2, 2)?;
    let mut library = Library::open(plan, tokens.as_mut_slice(), index.as_mut_slice());
    held_in(&rt, heap, &mut library)
}
