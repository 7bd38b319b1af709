// Single cuts.
use clike::cutting::{cut, cut_all};
use clike::lexeme::Lexeme;
use std::process::Abort;
use std::test::Fail;

// The kinds of lexemes without their bytes, so that a case need not repeat these.
#[derive(Clone, Copy, PartialEq, Eq, Debug)]
enum Kind {
    Nothing,
    Blank,
    Comment,
    OpenComment,
    Quoted,
    Name,
    Keyword,
    Number,
    Mark,
}

impl Kind {
    fn of(lexeme: &Lexeme) -> Kind {
        match *lexeme {
            Lexeme::Nothing => Kind::Nothing,
            Lexeme::Blank(_) => Kind::Blank,
            Lexeme::Comment(_) => Kind::Comment,
            Lexeme::OpenComment(_) => Kind::OpenComment,
            Lexeme::Quoted(_) => Kind::Quoted,
            Lexeme::Name(_) => Kind::Name,
            Lexeme::Keyword(_, _) => Kind::Keyword,
            Lexeme::Number(_) => Kind::Number,
            Lexeme::Mark(_) => Kind::Mark,
        }
    }

    // The kind of a byte that stands alone.
    fn of_byte(b: u8) -> Kind {
        match b {
            0 => Kind::Nothing,
            9..=13 | 32 => Kind::Blank,
            34 | 39 => Kind::Quoted,
            48..=57 => Kind::Number,
            65..=90 | 95 | 97..=122 => Kind::Name,
            _ => Kind::Mark,
        }
    }
}

// The first lexeme has this kind and this many bytes, which are the first ones, and the rest follows.
fn first_is(rt: &impl Abort, bytes: &[u8], wanted: Kind, size: usize) {
    let (lexeme, rest) = cut(bytes);
    assert_eq!(rt; Kind::of(&lexeme), wanted);
    assert_eq!(rt; lexeme.bytes().len(), size);
    assert!(rt; bytes.starts_with(lexeme.bytes()));
    assert!(rt; bytes.ends_with(rest));
    assert_eq!(rt; rest.len(), bytes.len().saturating_sub(size));
}

#[test]
fn each_kind(rt: HostRuntime) {
    first_is(&rt, b"", Kind::Nothing, 0);
    first_is(&rt, b"  a", Kind::Blank, 1);
    first_is(&rt, b"a_1-", Kind::Name, 3);
    first_is(&rt, b"_", Kind::Name, 1);
    first_is(&rt, b"if(", Kind::Keyword, 2);
    first_is(&rt, b"1.5e3_x-", Kind::Number, 7);
    first_is(&rt, b"0x1F;", Kind::Number, 4);
    first_is(&rt, b"1..2 ", Kind::Number, 4);
    first_is(&rt, b".5", Kind::Mark, 1);
    first_is(&rt, b"++", Kind::Mark, 1);
    first_is(&rt, b"/ /", Kind::Mark, 1);
    first_is(&rt, b"/", Kind::Mark, 1);
}

#[test]
fn block_comments(rt: HostRuntime) {
    first_is(&rt, b"/**/x", Kind::Comment, 4);
    first_is(&rt, b"/*/x", Kind::OpenComment, 4);
    first_is(&rt, b"/*/ */x", Kind::Comment, 6);
    first_is(&rt, b"/***/x", Kind::Comment, 5);
    first_is(&rt, b"/* a\n * b */ c", Kind::Comment, 12);
    first_is(&rt, b"/* a */ b */", Kind::Comment, 7);
    first_is(&rt, b"/* a * / ", Kind::OpenComment, 9);
    first_is(&rt, b"/*", Kind::OpenComment, 2);
    first_is(&rt, b"/**", Kind::OpenComment, 3);
    first_is(&rt, b"/* \" */ \"", Kind::Comment, 7);
    first_is(&rt, b"/* // */ a", Kind::Comment, 8);
}

#[test]
fn line_comments(rt: HostRuntime) {
    first_is(&rt, b"//", Kind::Comment, 2);
    first_is(&rt, b"// a\nb", Kind::Comment, 4);
    first_is(&rt, b"//\n", Kind::Comment, 2);
    first_is(&rt, b"// a \\\nb", Kind::Comment, 6);
    first_is(&rt, b"// 'a\nb'", Kind::Comment, 5);
    first_is(&rt, b"// /* a\nb*/", Kind::Comment, 7);
    first_is(&rt, b"///* a", Kind::Comment, 6);
}

#[test]
fn quotes_that_are_closed(rt: HostRuntime) {
    first_is(&rt, b"\"\"x", Kind::Quoted, 2);
    first_is(&rt, b"\"ab\"x", Kind::Quoted, 4);
    first_is(&rt, b"'a'x", Kind::Quoted, 3);
    first_is(&rt, b"'\"'x", Kind::Quoted, 3);
    first_is(&rt, b"\"'\"x", Kind::Quoted, 3);
    first_is(&rt, b"\"a\\\"b\"x", Kind::Quoted, 6);
    first_is(&rt, b"\"a\\\\\"x", Kind::Quoted, 5);
    first_is(&rt, b"'\\\\\\''x", Kind::Quoted, 6);
    first_is(&rt, b"\"a\\\nb\"x", Kind::Quoted, 6);
    first_is(&rt, b"\"/* a\" */", Kind::Quoted, 6);
    first_is(&rt, b"\"// a\" b", Kind::Quoted, 6);
}

#[test]
fn quotes_that_end_with_the_line(rt: HostRuntime) {
    first_is(&rt, b"\"\n", Kind::Quoted, 1);
    first_is(&rt, b"\"ab\nc\"", Kind::Quoted, 3);
    first_is(&rt, b"'ab\nc'", Kind::Quoted, 3);
    first_is(&rt, b"\"a\\\\\nb\"", Kind::Quoted, 4);
    first_is(&rt, b"\"a\\\n\nb\"", Kind::Quoted, 4);
}

#[test]
fn quotes_that_end_with_the_bytes(rt: HostRuntime) {
    first_is(&rt, b"\"", Kind::Quoted, 1);
    first_is(&rt, b"'", Kind::Quoted, 1);
    first_is(&rt, b"\"ab", Kind::Quoted, 3);
    first_is(&rt, b"\"ab\\", Kind::Quoted, 4);
    first_is(&rt, b"\"ab\\\"", Kind::Quoted, 5);
    first_is(&rt, b"\"ab'", Kind::Quoted, 4);
}

#[test]
fn zero_bytes(rt: HostRuntime) {
    first_is(&rt, b"\0", Kind::Nothing, 0);
    first_is(&rt, b"\0if", Kind::Nothing, 0);
    first_is(&rt, b" \0", Kind::Blank, 1);
    first_is(&rt, b"/*a\0*/", Kind::OpenComment, 3);
    first_is(&rt, b"/**\0/", Kind::OpenComment, 3);
    first_is(&rt, b"/\0*", Kind::Mark, 1);
    first_is(&rt, b"//a\0b\n", Kind::Comment, 3);
    first_is(&rt, b"\"a\0b\"", Kind::Quoted, 2);
    first_is(&rt, b"'a\\\0b'", Kind::Quoted, 3);
    first_is(&rt, b"ab\0c", Kind::Name, 2);
    first_is(&rt, b"while\0", Kind::Keyword, 5);
    first_is(&rt, b"wh\0ile", Kind::Name, 2);
    first_is(&rt, b"1.\05", Kind::Number, 2);
    first_is(&rt, b"+\0", Kind::Mark, 1);
}

#[test]
fn every_byte_alone(rt: HostRuntime) {
    for b in 0..=255u8 {
        let bytes = [b];
        first_is(&rt, &bytes, Kind::of_byte(b), usize::from(b != 0));
    }
}

#[test]
fn all_lexemes(rt: HostRuntime) -> Result<(), Fail> {
    let list = cut_all(rt.alloc(), b"do/*a*/x+='b';\n//c\0d")?;
    let kinds: Vec<Kind> = list.iter().map(Kind::of).collect(rt.alloc())?;
    assert_eq!(rt;
        kinds.as_slice(),
        [
            Kind::Keyword,
            Kind::Comment,
            Kind::Name,
            Kind::Mark,
            Kind::Mark,
            Kind::Quoted,
            Kind::Mark,
            Kind::Blank,
            Kind::Comment,
        ]
        .as_slice()
    );
    Ok(())
}
