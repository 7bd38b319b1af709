// Files taken in, taken out, and taken in again.
use crate::common::*;
use library::library::Library;
use prints::polynomial::Polynomial;
use std::alloc::Global;
use std::process::Abort;
use std::test::Fail;
use tokens::prose::Prose;

// That of the files 1 to 64 all but one are held, and that file 1 shares its first two tokens with each other of them.
fn all_are_held_but(
    rt: &impl Abort,
    heap: Global,
    library: &Library<'_, '_, Polynomial>,
    without: u16,
) -> Result<(), Fail> {
    let held = all_but(heap, 1, 65, without)?;
    holds(rt, heap, library, held.as_slice())?;
    shared_with(rt, heap, library, held.as_slice())
}

fn shared_with(
    rt: &impl Abort,
    heap: Global,
    library: &Library<'_, '_, Polynomial>,
    numbers: &[u16],
) -> Result<(), Fail> {
    let passages: Vec<[u32; 8]> = numbers
        .iter()
        .filter(|number| **number != 1)
        .map(|number| [u32::from(*number), 0, 0, 2, 0, 2, 0, 2])
        .collect(heap)?;
    let pairs = passages.len() as u64;
    assert_eq!(rt;
        reports(rt, heap, library, 1, passages.as_slice())?,
        [pairs, 0]
    );
    Ok(())
}

fn one_of_64_in(
    rt: &impl Abort,
    heap: Global,
    library: &mut Library<'_, '_, Polynomial>,
) -> Result<(), Fail> {
    add_64(rt, heap, library)?;
    all_are_held_but(rt, heap, library, 0)?;
    granted(library.remove(30))?;
    all_are_held_but(rt, heap, library, 30)?;
    add(rt, heap, library, 30, Prose::new(&[b'a', b'b', 30]), [3, 2])?;
    let mut held = all_but(heap, 1, 65, 30)?;
    held.push(30)?;
    holds(rt, heap, library, held.as_slice())?;
    shared_with(rt, heap, library, all_but(heap, 1, 65, 0)?.as_slice())
}

#[test]
fn one_of_64_is_removed_and_comes_last_when_it_is_added_again(rt: HostRuntime) -> Result<(), Fail> {
    let heap = rt.alloc();
    let mut tokens = token_list(heap, 192)?;
    let mut index = index_list::<Polynomial>(heap, 128)?;
    let plan = plan::<Polynomial>(2, 2)?;
    let mut library = Library::open(plan, tokens.as_mut_slice(), index.as_mut_slice());
    one_of_64_in(&rt, heap, &mut library)
}

fn alike_in(
    rt: &impl Abort,
    heap: Global,
    library: &mut Library<'_, '_, Polynomial>,
) -> Result<(), Fail> {
    let all = [
        [2, 1, 1, 2, 1, 3, 1, 3],
        [3, 0, 2, 2, 0, 2, 2, 4],
        [3, 2, 0, 2, 2, 4, 0, 2],
    ];
    for (number, file) in [(1, b"abcd"), (2, b"xbcy"), (3, b"cdab")] {
        add(rt, heap, library, number, Prose::new(file), [4, 3])?;
    }
    assert_eq!(rt; reports(rt, heap, library, 1, &all)?, [3, 0]);
    granted(library.remove(2))?;
    assert_eq!(rt; reports(rt, heap, library, 1, &all[1..])?, [2, 0]);
    add(rt, heap, library, 2, Prose::new(b"xbcy"), [4, 3])?;
    holds(rt, heap, library, &[1, 3, 2])?;
    assert_eq!(rt; reports(rt, heap, library, 1, &all)?, [3, 0]);
    Ok(())
}

#[test]
fn reports_are_alike_before_a_remove_and_after_the_add(rt: HostRuntime) -> Result<(), Fail> {
    let heap = rt.alloc();
    let mut tokens = token_list(heap, 12)?;
    let mut index = index_list::<Polynomial>(heap, 9)?;
    let plan = plan::<Polynomial>(2, 2)?;
    let mut library = Library::open(plan, tokens.as_mut_slice(), index.as_mut_slice());
    alike_in(&rt, heap, &mut library)
}

// The refusal of the last of three files of four tokens and three fingerprints each, where one was removed before.
fn third_in(
    rt: &impl Abort,
    heap: Global,
    library: &mut Library<'_, '_, Polynomial>,
) -> Result<[u32; 3], Fail> {
    add(rt, heap, library, 1, Prose::new(b"abcd"), [4, 3])?;
    add(rt, heap, library, 2, Prose::new(b"xbcy"), [4, 3])?;
    granted(library.remove(1))?;
    add(rt, heap, library, 3, Prose::new(b"cdab"), [4, 3])?;
    let mut work = work_list::<Polynomial>(heap, 1)?;
    Ok(refusal(library.add(1, Prose::new(b"abcd"), work.as_mut_slice())))
}

// The same in a library over so many tokens and index entries.
fn third_of_three(
    rt: &impl Abort,
    heap: Global,
    room: usize,
    places: usize,
) -> Result<[u32; 3], Fail> {
    let mut tokens = token_list(heap, room)?;
    let mut index = index_list::<Polynomial>(heap, places)?;
    let plan = plan::<Polynomial>(2, 2)?;
    let mut library = Library::open(plan, tokens.as_mut_slice(), index.as_mut_slice());
    third_in(rt, heap, &mut library)
}

#[test]
fn what_a_file_used_serves_again_to_the_last_entry(rt: HostRuntime) -> Result<(), Fail> {
    let heap = rt.alloc();
    assert_eq!(rt; third_of_three(&rt, heap, 12, 9)?, [0, 0, 0]);
    assert_eq!(rt; third_of_three(&rt, heap, 11, 9)?, [25, 0, 0]);
    assert_eq!(rt; third_of_three(&rt, heap, 12, 8)?, [26, 0, 0]);
    Ok(())
}
