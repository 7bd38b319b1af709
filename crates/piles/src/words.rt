// How a pile is written: a reader, and then its layers.
ghost use Rattle.std.specs.Prelude.{◌≡◌, ok_or};
ghost use Rattle.piles.specs.declared.words.Unread.TheVariants.{UnknownWord};
ghost use Rattle.piles.specs.Words.{class_of, layer_of, reader_of};

use crate::pile::{Layer, Reader};
use std::str::FromStr;

// Why a word names no reader, or no layer.
#[derive(Clone, Copy, Debug, PartialEq, Eq)]
pub enum Unread {
    UnknownWord,
    BadClass,
}

impl FromStr for Reader {
    type Err = Unread;

    ghost from_str_gives = { λ word read. read ≡ ok_or (reader_of word) UnknownWord };

    fn from_str(word: &str) -> Result<Reader, Unread> {
        match word {
            "prose" => Ok(Reader::Prose),
            "clike" => Ok(Reader::Clike),
            _ => Err(Unread::UnknownWord),
        }
    }
}

impl FromStr for Layer {
    type Err = Unread;

    ghost from_str_gives = { λ word read. read ≡ layer_of word };

    fn from_str(word: &str) -> Result<Layer, Unread> {
        match word {
            "case" => Ok(Layer::Case),
            "names" => Ok(Layer::Names),
            _ => {
                let digits = word.strip_prefix("drop=").ok_or(Unread::UnknownWord)?;
                let class = class_of(digits).ok_or(Unread::BadClass)?;
                Ok(Layer::Drop(class))
            }
        }
    }
}

// The class that digits write: one to three of them, and at most 255. `from_str_radix` alone would also take a plus sign and more zeros.
fn class_of(digits: &str) -> Option<u8>
    ensures { result ≡ class_of digits.now }
{
    if digits.len() > 3 || digits.starts_with('+') {
        return None;
    }
    u8::from_str_radix(digits, 10).ok()
}
