// Prose and the layers at their edges.
use either::Either;
use layers::case::Case;
use layers::dropping::DropClass;
use layers::names::Names;
use piles::pile::{Layer, Reader, pile};
use std::alloc::Global;
use std::process::Abort;
use std::test::Fail;
use tokens::collected::Collected;
use tokens::prose::Prose;
use tokens::source::Source;
use tokens::token::{Fault, Token};

// Code, class, from and to of a token, in a row: shorter to read than a `Token` with its four names.
fn row(token: Token) -> [u32; 4] {
    [
        u32::from(token.code),
        u32::from(u8::from(token.class)),
        token.from,
        token.to,
    ]
}

// Cause, place and depth of a fault.
fn numbers(fault: Fault) -> [u32; 3] {
    [
        u32::from(u8::from(fault.cause)),
        fault.place,
        u32::from(fault.depth),
    ]
}

// The row of each token that is left of a file, and the numbers of its ending.
fn expect(
    rt: &impl Abort,
    heap: Global,
    file: &[u8],
    layers: &[Layer],
    tokens: &[[u32; 4]],
    ending: Option<[u32; 3]>,
) -> Result<(), Fail> {
    let all = pile(heap, Reader::Prose, layers, file)?;
    assert!(rt; all.list.map(row).eq(tokens.iter().copied()), "the tokens");
    assert!(rt; all.ending.map(numbers) == ending, "the ending");
    Ok(())
}

#[test]
fn classes_of_prose(rt: HostRuntime) -> Result<(), Fail> {
    let tokens = [
        [97, 2, 0, 1],
        [66, 3, 1, 2],
        [49, 5, 2, 3],
        [50, 6, 3, 4],
        [99, 2, 4, 5],
        [9, 1, 5, 6],
        [95, 7, 6, 7],
        [255, 7, 7, 8],
    ];
    expect(&rt, rt.alloc(), b"aB12c\t_\xff", &[], &tokens, None)
}

#[test]
fn zero_bytes(rt: HostRuntime) -> Result<(), Fail> {
    let heap = rt.alloc();
    expect(&rt, heap, b"", &[], &[], None)?;
    expect(&rt, heap, b"\0a", &[], &[], Some([2, 0, 0]))?;
    expect(&rt, heap, b"a\0", &[], &[[97, 2, 0, 1]], Some([2, 1, 0]))?;
    expect(&rt, heap, b"a\0b\0", &[], &[[97, 2, 0, 1]], Some([2, 1, 0]))
}

#[test]
fn faults_pass_through_layers(rt: HostRuntime) -> Result<(), Fail> {
    let layers = [Layer::Case, Layer::Drop(1), Layer::Names];
    expect(
        &rt,
        rt.alloc(),
        b"AB 1\0c",
        &layers,
        &[[300, 10, 0, 2], [49, 5, 3, 4]],
        Some([2, 4, 0]),
    )
}

#[test]
fn names_keep_apart_without_blanks(rt: HostRuntime) -> Result<(), Fail> {
    let heap = rt.alloc();
    let layers = [Layer::Drop(1), Layer::Names];
    expect(
        &rt,
        heap,
        b"ab cd",
        &layers,
        &[[300, 10, 0, 2], [300, 10, 3, 5]],
        None,
    )?;
    // Without the tokens that start them, what goes on belongs to no name.
    let layers = [Layer::Drop(2), Layer::Names];
    expect(
        &rt,
        heap,
        b"ab c",
        &layers,
        &[[98, 3, 1, 2], [32, 1, 2, 3]],
        None,
    )
}

#[test]
fn drop_of_no_class(rt: HostRuntime) -> Result<(), Fail> {
    let heap = rt.alloc();
    let tokens = [[97, 2, 0, 1], [32, 1, 1, 2]];
    expect(&rt, heap, b"a ", &[Layer::Drop(0)], &tokens, None)?;
    expect(&rt, heap, b"a ", &[Layer::Drop(11)], &tokens, None)?;
    expect(&rt, heap, b"a ", &[Layer::Drop(1)], &[[97, 2, 0, 1]], None)
}

#[test]
fn capitals_at_the_ends(rt: HostRuntime) -> Result<(), Fail> {
    let tokens = [[64, 7, 0, 1], [97, 2, 1, 2], [122, 3, 2, 3], [91, 7, 3, 4]];
    expect(&rt, rt.alloc(), b"@AZ[", &[Layer::Case], &tokens, None)
}

#[test]
fn the_longest_name(rt: HostRuntime) -> Result<(), Fail> {
    let heap = rt.alloc();
    let mut file = Vec::from_slice(heap, b".")?;
    file.resize(256, b'n')?;
    let point = [46, 7, 0, 1];
    expect(
        &rt,
        heap,
        file.as_slice(),
        &[Layer::Names],
        &[point, [300, 10, 1, 256]],
        None,
    )?;
    file.push(b'n')?;
    expect(
        &rt,
        heap,
        file.as_slice(),
        &[Layer::Names],
        &[point],
        Some([4, 1, 1]),
    )?;
    // Found by the third layer, and before the fault of the file.
    file.push(0)?;
    let layers = [Layer::Case, Layer::Drop(7), Layer::Names];
    expect(&rt, heap, file.as_slice(), &layers, &[], Some([4, 1, 3]))
}

#[test]
fn the_largest_file(rt: HostRuntime) -> Result<(), Fail> {
    let heap = rt.alloc();
    let mut file = vec![in heap; b'x'; 1_048_576]?;
    let all = Collected::of(heap, Prose::new(file.as_slice()))?;
    assert!(rt; all.list.len() == 1_048_576);
    assert!(rt; all.ending.is_none());
    file.push(b'x')?;
    expect(&rt, heap, file.as_slice(), &[], &[], Some([1, 0, 0]))
}

#[test]
fn depth_stays_at_255(rt: HostRuntime) {
    let deep = Collected {
        list: Vec::new(rt.alloc()).into_iter(),
        ending: None,
        depth: 254,
    };
    let one = Case::over(deep);
    assert!(rt; one.depth() == 255);
    let two = DropClass::over(one, 1);
    assert!(rt; two.depth() == 255);
    let three = Names::over(two);
    assert!(rt; three.depth() == 255);
}

#[test]
fn a_sum_is_either(rt: HostRuntime) {
    let mut left = Either::<Prose<'_>, Names<Case<Prose<'_>>>>::Left(Prose::new(b"A"));
    let mut right = Either::<Prose<'_>, Names<Case<Prose<'_>>>>::Right(Names::over(Case::over(
        Prose::new(b"A"),
    )));
    assert!(rt; left.depth() == 0 && right.depth() == 2);
    assert!(rt; code(&mut left) == Some(65));
    assert!(rt; code(&mut right) == Some(300));
    // At the end the answer is the same every time.
    assert!(rt; code(&mut left).is_none() && code(&mut left).is_none());
}

fn code<S: Source>(source: &mut S) -> Option<u16> {
    source.next().ok().flatten().map(|token| token.code)
}
