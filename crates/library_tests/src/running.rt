// A list of calls with refusals between.
use crate::common::*;
use library::running::run;
use model::calls::{Answer, Call};
use prints::polynomial::Polynomial;
use std::alloc::{AllocError, Global};
use std::process::Abort;
use std::test::Fail;
use tokens::prose::Prose;
use tokens::token::Token;

// A call with the length of the list that it is handed. No `Call`, since that owns its list, and the table is read twice.
#[derive(Clone, Copy)]
enum Ask<'a> {
    Add(u16, &'a [u8]),
    Remove(u16),
    Held(usize),
    Report(u16, usize),
}

fn call(heap: Global, ask: Ask<'_>) -> Result<Call<Prose<'_>, u32>, AllocError> {
    let call = match ask {
        Ask::Add(number, file) => Call::Add {
            number,
            source: Prose::new(file),
            work: work_list::<Polynomial>(heap, 1)?,
        },
        Ask::Remove(number) => Call::Remove { number },
        Ask::Held(entries) => Call::Held {
            list: vec![in heap; 7; entries]?,
        },
        Ask::Report(number, entries) => Call::Report {
            number,
            list: passage_list(heap, entries)?,
        },
    };
    Ok(call)
}

fn calls<'a>(
    heap: Global,
    table: &[(Ask<'a>, [u64; 4])],
) -> Result<Vec<Call<Prose<'a>, u32>>, AllocError> {
    let mut list = Vec::new(heap);
    for (ask, _) in table {
        list.push(call(heap, *ask)?)?;
    }
    Ok(list)
}

// The counts of a granted call behind 2 for Add, 3 for Remove, 4 for Report and 6 for Held; 0 and the reason of a refused one. A row is
// shorter to read than an answer with its names.
fn row(answer: &Answer) -> [u64; 4] {
    match answer {
        Answer::Added(Ok(added)) => [2, added.tokens as u64, added.prints as u64, 0],
        Answer::Removed(Ok(_)) => [3, 0, 0, 0],
        Answer::Held(Ok(count), _) => [6, *count as u64, 0, 0],
        Answer::Reported(Ok(counts), _) => [
            4,
            counts.passages as u64,
            counts.pairs,
            counts.differing,
        ],
        Answer::Added(Err(refusal))
        | Answer::Removed(Err(refusal))
        | Answer::Held(Err(refusal), _)
        | Answer::Reported(Err(refusal), _) => [0, u64::from(u8::from(refusal.reason)), 0, 0],
    }
}

fn rows_are(rt: &impl Abort, answers: &[Answer], table: &[(Ask<'_>, [u64; 4])]) {
    assert_eq!(rt; answers.len(), table.len());
    for (answer, (_, want)) in answers.iter().zip(table.iter()) {
        assert_eq!(rt; row(answer), *want);
    }
}

// That the list that came back with the answer at a place has these entries.
fn list_is(
    rt: &impl Abort,
    answers: &[Answer],
    at: usize,
    entries: &[[u32; 8]],
) -> Result<(), Fail> {
    match answers.get(at) {
        Some(Answer::Reported(_, list)) => passages_are(rt, list.as_slice(), entries),
        _ => Err(Fail::new("not the answer of a report")),
    }
}

// The same of the list of a Held, whose entries are numbers.
fn held_are(rt: &impl Abort, answers: &[Answer], at: usize, entries: &[u16]) -> Result<(), Fail> {
    match answers.get(at) {
        Some(Answer::Held(_, list)) => {
            assert!(rt; list.as_slice() == entries, "the held numbers");
            Ok(())
        },
        _ => Err(Fail::new("not a list of the held")),
    }
}

// Code, class, from and to of each token.
fn tokens_are(rt: &impl Abort, tokens: &[Token], entries: &[[u32; 4]]) {
    assert_eq!(rt; tokens.len(), entries.len());
    for (token, want) in tokens.iter().zip(entries.iter()) {
        let got = [
            u32::from(token.code),
            u32::from(u8::from(token.class)),
            token.from,
            token.to,
        ];
        assert_eq!(rt; got, *want);
    }
}

fn lists_are(rt: &impl Abort, answers: &[Answer]) -> Result<(), Fail> {
    list_is(rt, answers, 4, &[[2, 1, 1, 2, 1, 3, 1, 3], [0; 8]])?;
    list_is(rt, answers, 5, &[])?;
    held_are(rt, answers, 6, &[0])?;
    held_are(rt, answers, 7, &[1, 2, 0])?;
    list_is(rt, answers, 10, &[[0; 8]])?;
    held_are(rt, answers, 11, &[2, 0, 0])
}

// Of 9 tokens the first 4 are used at the end.
fn run_in(rt: &impl Abort, heap: Global, tokens: &mut [Token]) -> Result<(), Fail> {
    let table = [
        (Ask::Add(1, b"abcd"), [2, 4, 3, 0]),
        (Ask::Add(0, b"abcd"), [0, 21, 0, 0]),
        (Ask::Add(1, b"abcd"), [0, 22, 0, 0]),
        (Ask::Add(2, b"xbcy"), [2, 4, 3, 0]),
        (Ask::Report(1, 2), [4, 1, 1, 0]),
        (Ask::Report(1, 0), [0, 42, 0, 0]),
        (Ask::Held(1), [0, 61, 0, 0]),
        (Ask::Held(3), [6, 2, 0, 0]),
        (Ask::Remove(3), [0, 31, 0, 0]),
        (Ask::Remove(1), [3, 0, 0, 0]),
        (Ask::Report(1, 1), [0, 41, 0, 0]),
        (Ask::Held(3), [6, 1, 0, 0]),
    ];
    let mut index = index_list::<Polynomial>(heap, 9)?;
    let plan = plan::<Polynomial>(2, 2)?;
    let calls = calls(heap, &table)?;
    let answers = run(heap, plan, tokens, index.as_mut_slice(), calls)?;
    rows_are(rt, answers.as_slice(), &table);
    lists_are(rt, answers.as_slice())
}

#[test]
fn calls_are_answered_in_order_and_leave_the_held_tokens(rt: HostRuntime) -> Result<(), Fail> {
    let mut tokens = token_list(rt.alloc(), 9)?;
    run_in(&rt, rt.alloc(), tokens.as_mut_slice())?;
    let left = [
        [120, 2, 0, 1],
        [98, 3, 1, 2],
        [99, 3, 2, 3],
        [121, 3, 3, 4],
        [0; 4],
        [0; 4],
        [0; 4],
        [0; 4],
        [0; 4],
    ];
    tokens_are(&rt, tokens.as_slice(), &left);
    Ok(())
}
