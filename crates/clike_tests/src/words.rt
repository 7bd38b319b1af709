// Keywords, and names that are nearly one.
use clike::cutting::cut;
use clike::lexeme::Lexeme;
use std::test::Fail;

// Written out again: a test by the table itself would hold for any words.
const WORDS: [&[u8]; 32] = [
    b"auto",
    b"break",
    b"case",
    b"char",
    b"const",
    b"continue",
    b"default",
    b"do",
    b"double",
    b"else",
    b"enum",
    b"extern",
    b"float",
    b"for",
    b"goto",
    b"if",
    b"int",
    b"long",
    b"register",
    b"return",
    b"short",
    b"signed",
    b"sizeof",
    b"static",
    b"struct",
    b"switch",
    b"typedef",
    b"union",
    b"unsigned",
    b"void",
    b"volatile",
    b"while",
];

// What bytes are to the cutter.
#[derive(Clone, Copy, PartialEq, Eq, Debug)]
enum Word {
    Keyword(u8),
    Name,
    // Another lexeme, or more than one.
    Other,
}

impl Word {
    fn of(bytes: &[u8]) -> Word {
        match cut(bytes) {
            (Lexeme::Keyword(_, number), []) => Word::Keyword(number),
            (Lexeme::Name(_), []) => Word::Name,
            _ => Word::Other,
        }
    }
}

#[test]
fn each_keyword_has_its_number(rt: HostRuntime) {
    for (wanted, word) in (0..32u8).zip(WORDS.iter()) {
        assert_eq!(rt; Word::of(word), Word::Keyword(wanted));
    }
}

#[test]
fn a_letter_more_is_a_name(rt: HostRuntime) -> Result<(), Fail> {
    for word in WORDS.iter() {
        let mut longer = word.to_vec(rt.alloc())?;
        longer.push(b's')?;
        assert_eq!(rt; Word::of(longer.as_slice()), Word::Name);
    }
    Ok(())
}

#[test]
fn a_letter_less_is_a_name(rt: HostRuntime) -> Result<(), Fail> {
    for word in WORDS.iter() {
        let [shorter @ .., _] = *word else {
            return Err(Fail::new("an empty keyword"));
        };
        assert_eq!(rt; Word::of(shorter), Word::Name);
    }
    Ok(())
}

#[test]
fn capitals_are_no_keywords(rt: HostRuntime) {
    assert_eq!(rt; Word::of(b"IF"), Word::Name);
    assert_eq!(rt; Word::of(b"While"), Word::Name);
    assert_eq!(rt; Word::of(b"_if"), Word::Name);
    assert_eq!(rt; Word::of(b"if_"), Word::Name);
    assert_eq!(rt; Word::of(b"if0"), Word::Name);
    assert_eq!(rt; Word::of(b"inline"), Word::Name);
}
