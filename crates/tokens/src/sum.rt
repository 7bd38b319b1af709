// A sum of two sources is a source, for lists that mix kinds of file.
ghost use Rattle.either.specs.Either.{either};

use crate::source::Source;
use crate::token::{Fault, Token};
use either::Either;

impl<A: Source, B: Source> Source for Either<A, B> {
    ghost tokens = { either A.Source.tokens B.Source.tokens };

    ghost ending = { either A.Source.ending B.Source.ending };

    ghost depth = { either A.Source.depth B.Source.depth };

    fn lawful(&self) {
        match self {
            Either::Left(a) => a.lawful(),
            Either::Right(b) => b.lawful(),
        }
    }

    fn next(&mut self) -> Result<Option<Token>, Fault> {
        match self {
            Either::Left(a) => a.next(),
            Either::Right(b) => b.next(),
        }
    }

    fn depth(&self) -> u8 {
        match self {
            Either::Left(a) => a.depth(),
            Either::Right(b) => b.depth(),
        }
    }
}
