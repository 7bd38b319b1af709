// Reading a source into memory, and what was read as a source.
ghost use Rattle.std.specs.Prelude.{◌≡◌, IfOk};
ghost use Rattle.tokens.specs.Collecting.{collected_left};

use crate::collected::Collected;
use crate::source::Source;
use crate::token::{Fault, Token};
use std::alloc::{AllocError, Global};

impl Collected {
    pub fn of<S: Source + Drop>(heap: Global, mut source: S) -> Result<Collected, AllocError>
        ensures tokens { IfOk result (λ c. collected_left c ≡ S.Source.tokens source) }
        ensures ending { IfOk result (λ c. c.ending ≡ S.Source.ending source) }
        ensures depth { IfOk result (λ c. c.depth ≡ S.Source.depth source) }
    {
        source.lawful();
        let depth = source.depth();
        let mut list = Vec::new(heap);
        while let Ok(Some(token)) = source.next() {
            list.push(token)?;
        }
        // The list has ended; its ending comes again when it is asked for.
        let ending = source.next().err();
        Ok(Collected {
            list: list.into_iter(),
            ending,
            depth,
        })
    }
}

impl Source for Collected {
    ghost tokens = { collected_left };

    ghost ending = { λ s. s.ending };

    ghost depth = { λ s. s.depth };

    fn lawful(&self) {}

    fn next(&mut self) -> Result<Option<Token>, Fault> {
        match self.list.next() {
            Some(token) => Ok(Some(token)),
            None => self.ending.map_or(Ok(None), Err),
        }
    }

    fn depth(&self) -> u8 {
        self.depth
    }
}
