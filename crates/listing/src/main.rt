// Lists the tokens that a pile of layers leaves of a file:
//     listing FILE READER LAYER..
// as `listing report.txt prose drop=1 case names`.
#![tactic(auto)]

use piles::lines::listed;
use piles::pile::{Layer, Reader};
use piles::words::Unread;
use std::alloc::AllocError;
use std::io::Write;
use std::process::ExitCode;
use std::{env, fs};
use thiserror::Error;

// Why nothing was listed.
#[derive(Debug, Drop, Error)]
enum Stop {
    #[error("write: listing FILE READER LAYER.., as listing report.txt prose drop=1 case names")]
    Usage,
    #[error("no reader is called '{0}': write prose or clike")]
    UnknownReader(String),
    #[error("no layer is called '{0}': write case, names or drop=CLASS")]
    UnknownLayer(String),
    #[error("'{0}' names no class: write drop= and a number from 0 to 255")]
    BadClass(String),
    #[error("the file '{0}' cannot be read")]
    NoFile(String),
    #[error("there is not enough memory")]
    Memory(#[from(alloc)] AllocError),
    // Without the system's error: its `Debug` would ask the C library for a text that nobody prints.
    #[error("the arguments cannot be read, or the page cannot be written")]
    Io,
}

// The error is printed by hand, since one that `main` answers is printed without the program's name.
fn main(rt: HostRuntime) -> ExitCode {
    match run(&rt) {
        Ok(()) => ExitCode::SUCCESS,
        Err(stop) => {
            let _ = eprintln!(rt; "listing: {stop}");
            ExitCode::FAILURE
        }
    }
}

// Writes nothing before all is read and worked out.
fn run(rt: &HostRuntime) -> Result<(), Stop> {
    let heap = rt.alloc();
    let mut words = env::args(rt).map_err(|_| Stop::Io)?.skip(1);
    let path = words.next().ok_or(Stop::Usage)?;
    let word = words.next().ok_or(Stop::Usage)?;
    let Ok(reader) = word.parse::<Reader>() else {
        return Err(Stop::UnknownReader(word));
    };
    let mut layers = Vec::<Layer>::new(heap);
    for word in words {
        match word.parse() {
            Ok(layer) => layers.push(layer)?,
            Err(Unread::UnknownWord) => return Err(Stop::UnknownLayer(word)),
            Err(Unread::BadClass) => return Err(Stop::BadClass(word)),
        }
    }
    let Ok(file) = fs::read(rt, path.as_str()) else {
        return Err(Stop::NoFile(path));
    };
    let page = listed(heap, reader, layers.as_slice(), file.as_slice())?;
    rt.stdout().write_all(page.as_slice()).map_err(|_| Stop::Io)
}
