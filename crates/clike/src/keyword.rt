// The keywords of C89.
ghost use Rattle.std.specs.Prelude.{◌≡◌, ◌<◌, length, position, IfSome};
ghost use Rattle.std.specs.Str.{bytes_eq};
ghost use Rattle.clike.specs.Keywords.{keyword_number};

// In alphabetical order: the place of each is its number. A number and no enum of 32 words, since all that is asked of a keyword is its
// code, 256 and this number.
const KEYWORDS: [&[u8]; 32] = [
    b"auto",
    b"break",
    b"case",
    b"char",
    b"const",
    b"continue",
    b"default",
    b"do",
    b"double",
    b"else",
    b"enum",
    b"extern",
    b"float",
    b"for",
    b"goto",
    b"if",
    b"int",
    b"long",
    b"register",
    b"return",
    b"short",
    b"signed",
    b"sizeof",
    b"static",
    b"struct",
    b"switch",
    b"typedef",
    b"union",
    b"unsigned",
    b"void",
    b"volatile",
    b"while",
];

// The place of the first word that the run is.
fn place_among(run: &[u8], words: &[&[u8]]) -> Option<usize>
    ensures place { result ≡ position (λ word. bytes_eq run.now word.now) words.now }
    ensures within { IfSome result (λ i. i < length words.now) }
{
    words.iter().position(|word| run == *word)
}

// The number of the keyword that the run is.
pub fn keyword_number(run: &[u8]) -> Option<u8>
    ensures { result ≡ keyword_number run.now }
{
    place_among(run, &KEYWORDS).map(|place| place as u8)
}
