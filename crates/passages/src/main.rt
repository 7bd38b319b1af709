// Shows the passages that the files left.txt and right.txt of the working directory share.
#![tactic(auto)]

use pages::whole::page;
use std::fs;
use std::io::Write;
use std::process::ExitCode;
use thiserror::Error;

// What went wrong outside the page, which is not printed then.
#[derive(Debug, Drop, Error)]
enum Stop {
    #[error("there is not enough memory")]
    Memory,
    #[error("the page cannot be written")]
    Output,
}

// The error is printed by hand, since one that `main` answers is printed without the program's name.
fn main(rt: HostRuntime) -> ExitCode {
    match run(&rt) {
        Ok(()) => ExitCode::SUCCESS,
        Err(stop) => {
            let _ = eprintln!(rt; "passages: {stop}");
            ExitCode::FAILURE
        }
    }
}

fn run(rt: &HostRuntime) -> Result<(), Stop> {
    let left = fs::read(rt, "left.txt").ok();
    let right = fs::read(rt, "right.txt").ok();
    // `page` promises that it stops for want of memory alone
    let page = page(rt.alloc(), left, right).map_err(|_| Stop::Memory)?;
    rt.stdout()
        .write_all(page.as_slice())
        .map_err(|_| Stop::Output)
}
