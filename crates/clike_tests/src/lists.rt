// Lists of tokens, and their endings.
use clike::state::Clike;
use layers::names::Names;
use std::process::Abort;
use std::test::Fail;
use tokens::source::Source;
use tokens::token::{Fault, Token};

// The next tokens have these codes and classes, and cover these places.
// A row is shorter to read than a `Token` with its four names.
fn next_are<S: Source>(
    rt: &impl Abort,
    source: &mut S,
    rows: &[(u16, u8, u32, u32)],
) -> Result<(), Fail> {
    for row in rows {
        let Ok(Some(token)) = source.next() else {
            return Err(Fail::new("the list has ended"));
        };
        assert_eq!(rt;
            (token.code, u8::from(token.class), token.from, token.to),
            *row
        );
    }
    Ok(())
}

// The list ends in a fault of the file itself, with this cause, by the number that is answered, at this place.
fn fault_is(
    rt: &impl Abort,
    answer: Result<Option<Token>, Fault>,
    cause: u8,
    place: u32,
) -> Result<(), Fail> {
    let Err(fault) = answer else {
        return Err(Fail::new("no fault"));
    };
    assert_eq!(rt;
        (u8::from(fault.cause), fault.place, fault.depth),
        (cause, place, 0)
    );
    Ok(())
}

fn clean(answer: Result<Option<Token>, Fault>) -> Result<(), Fail> {
    match answer {
        Ok(None) => Ok(()),
        _ => Err(Fail::new("the list goes on or ends in a fault")),
    }
}

#[test]
fn names_over_a_condition(rt: HostRuntime) -> Result<(), Fail> {
    let mut source = Names::over(Clike::new(b"if(ab)"));
    next_are(
        &rt,
        &mut source,
        &[
            (271, 4, 0, 2),
            (40, 7, 2, 3),
            (300, 10, 3, 5),
            (41, 7, 5, 6),
        ],
    )?;
    clean(source.next())?;
    clean(source.next())
}

#[test]
fn an_open_comment(rt: HostRuntime) -> Result<(), Fail> {
    let mut source = Clike::new(b"a/*/");
    assert_eq!(rt; source.depth(), 0);
    next_are(
        &rt,
        &mut source,
        &[(97, 2, 0, 1), (47, 9, 1, 2), (42, 9, 2, 3), (47, 9, 3, 4)],
    )?;
    fault_is(&rt, source.next(), 3, 1)?;
    fault_is(&rt, source.next(), 3, 1)
}

#[test]
fn each_class(rt: HostRuntime) -> Result<(), Fail> {
    let mut source = Clike::new(b" b1 2c\"'\"//");
    next_are(
        &rt,
        &mut source,
        &[
            (32, 1, 0, 1),
            (98, 2, 1, 2),
            (49, 3, 2, 3),
            (32, 1, 3, 4),
            (50, 5, 4, 5),
            (99, 6, 5, 6),
            (34, 8, 6, 7),
            (39, 8, 7, 8),
            (34, 8, 8, 9),
            (47, 9, 9, 10),
            (47, 9, 10, 11),
        ],
    )?;
    clean(source.next())
}

#[test]
fn a_zero_byte_ends_the_list(rt: HostRuntime) -> Result<(), Fail> {
    let mut source = Clike::new(b"do\0while");
    next_are(&rt, &mut source, &[(263, 4, 0, 2)])?;
    fault_is(&rt, source.next(), 2, 2)?;
    fault_is(&rt, source.next(), 2, 2)
}

// The zero byte is the fault, and not the comment that it leaves open.
#[test]
fn a_zero_byte_in_an_open_comment(rt: HostRuntime) -> Result<(), Fail> {
    let mut source = Clike::new(b"/*\0");
    next_are(&rt, &mut source, &[(47, 9, 0, 1), (42, 9, 1, 2)])?;
    fault_is(&rt, source.next(), 2, 2)
}

#[test]
fn an_empty_file() -> Result<(), Fail> {
    let mut source = Clike::new(b"");
    clean(source.next())
}

#[test]
fn a_file_over_the_limit(rt: HostRuntime) -> Result<(), Fail> {
    let most = vec![in rt.alloc(); b'/'; 1048576]?;
    let mut source = Clike::new(most.as_slice());
    next_are(&rt, &mut source, &[(47, 9, 0, 1)])?;
    let more = vec![in rt.alloc(); b'/'; 1048577]?;
    let mut none = Clike::new(more.as_slice());
    fault_is(&rt, none.next(), 1, 0)
}

// How many tokens a list has, if it ends before one more than fit a file.
fn count<S: Source>(source: &mut S) -> u32 {
    for tokens in 0..1_048_577 {
        let Ok(Some(_)) = source.next() else {
            return tokens;
        };
    }
    1_048_577
}

// 65,536 lines of 16 bytes and 15 tokens each: as large as a file may be.
#[test]
fn a_large_file(rt: HostRuntime) -> Result<(), Fail> {
    let mut file = Vec::new(rt.alloc());
    for _ in 0..65_536u32 {
        file.extend_from_slice(b"if(ab)/*c*/\"d\" \n")?;
    }
    assert_eq!(rt; file.len(), 1_048_576);
    let mut source = Clike::new(file.as_slice());
    assert_eq!(rt; count(&mut source), 983_040);
    clean(source.next())
}
