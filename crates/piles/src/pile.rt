// A reader of files with layers over it.
ghost use Rattle.std.specs.Prelude.{◌≡◌, IfOk};
ghost use Rattle.piles.specs.Piles.{stream, read_as, put_on, piled};

use clike::state::Clike;
use layers::case::Case;
use layers::dropping::DropClass;
use layers::names::Names;
use std::alloc::{AllocError, Global};
use tokens::collected::Collected;
use tokens::prose::Prose;

// How a file is read.
#[derive(Clone, Copy, Debug, PartialEq, Eq)]
pub enum Reader {
    Prose,
    Clike,
}

impl Reader {
    // The tokens of a file.
    fn read(self, heap: Global, file: &[u8]) -> Result<Collected, AllocError>
        ensures { IfOk result (λ c. stream c ≡ read_as self file.now) }
    {
        match self {
            Reader::Prose => Collected::of(heap, Prose::new(file)),
            Reader::Clike => Collected::of(heap, Clike::new(file)),
        }
    }
}

// A layer to be put on.
#[derive(Clone, Copy, Debug, PartialEq, Eq)]
pub enum Layer {
    Case,
    // by the number of a class, as `DropClass` is made
    Drop(u8),
    Names,
}

impl Layer {
    // This layer over a list, which it reads to its end: the layers are known only when the program runs, so each has to hand on one type.
    fn over(self, heap: Global, below: Collected) -> Result<Collected, AllocError>
        ensures { IfOk result (λ c. stream c ≡ put_on self (stream below)) }
    {
        match self {
            Layer::Case => Collected::of(heap, Case::over(below)),
            Layer::Drop(class) => Collected::of(heap, DropClass::over(below, class)),
            Layer::Names => Collected::of(heap, Names::over(below)),
        }
    }
}

// What the layers, the first one lowest, leave of a file.
pub fn pile(
    heap: Global,
    reader: Reader,
    layers: &[Layer],
    file: &[u8],
) -> Result<Collected, AllocError>
    ensures { IfOk result (λ c. stream c ≡ piled layers.now (read_as reader file.now)) }
{
    let mut all = reader.read(heap, file)?;
    for layer in layers {
        all = layer.over(heap, all)?;
    }
    Ok(all)
}
