// The lexemes of C-like bytes.
ghost use Rattle.std.specs.Prelude.{◌≡◌};
ghost use Rattle.clike.specs.Cutting.{lexeme_bytes};

// Each but `Nothing` is a part of the bytes that it was cut from; a keyword comes with its number. `Nothing`, where no lexeme is left, is
// a case and no `Option`, so that who cuts matches on one enum.
#[derive(Clone, Copy, PartialEq, Eq, Debug)]
pub enum Lexeme<'a> {
    Nothing,
    Blank(&'a [u8]),
    Comment(&'a [u8]),
    OpenComment(&'a [u8]),
    Quoted(&'a [u8]),
    Name(&'a [u8]),
    Keyword(&'a [u8], u8),
    Number(&'a [u8]),
    Mark(&'a [u8]),
}

impl<'a> Lexeme<'a> {
    pub fn bytes(&self) -> &'a [u8]
        ensures { result.now ≡ lexeme_bytes self.now }
    {
        match *self {
            Lexeme::Nothing => &[],
            Lexeme::Blank(run)
            | Lexeme::Comment(run)
            | Lexeme::OpenComment(run)
            | Lexeme::Quoted(run)
            | Lexeme::Name(run)
            | Lexeme::Keyword(run, _)
            | Lexeme::Number(run)
            | Lexeme::Mark(run) => run,
        }
    }
}
