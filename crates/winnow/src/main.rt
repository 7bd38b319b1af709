// Shows hash values of short grams, and the fingerprints of a short text.
#![tactic(auto)]

use prints::cyclic::CyclicShift;
use prints::hash::GramHash;
use prints::list::fingerprints;
use prints::pair::Pair;
use prints::polynomial::Polynomial;
use prints::window::Placed;

const TEXT: [u16; 21] = [
    97, 100, 111, 114, 117, 110, 114, 117, 110, 114, 117, 110, 97, 100, 111, 114, 117, 110, 114,
    117, 110,
];

fn values(rt: &HostRuntime) -> anyhow::Result<()> {
    println!(rt;
        "polynomial of 97 98 99 100: {}",
        Polynomial::of(&[97, 98, 99, 100])
    )?;
    println!(rt; "polynomial of 2 1: {}", Polynomial::of(&[2, 1]))?;
    println!(rt; "polynomial of 1 1001: {}", Polynomial::of(&[1, 1001]))?;
    println!(rt; "cyclic shift of 1 1: {}", CyclicShift::of(&[1, 1]))?;
    let both = Pair::<Polynomial, CyclicShift>::of(&[2, 1]);
    println!(rt; "pair of 2 1: {} {}", both.0, both.1)?;
    let nested = Pair::<Pair<Polynomial, CyclicShift>, Polynomial>::of(&[1, 1001]);
    println!(rt; "pair of a pair, of 1 1001: {} {} {}", nested.0.0, nested.0.1, nested.1)?;
    Ok(())
}

fn listing(rt: &HostRuntime) -> anyhow::Result<()> {
    let mut work = [Placed {
        place: 0,
        value: 0u32,
    }; 4];
    println!(rt; "fingerprints of adorunrunrunadorunrun, k = 5, w = 4:")?;
    for found in &fingerprints::<Polynomial>(rt.alloc(), &TEXT, 5, 4, &mut work)? {
        println!(rt; "place {}, value {}", found.place, found.value)?;
    }
    Ok(())
}

fn run(rt: &HostRuntime) -> anyhow::Result<()> {
    values(rt)?;
    listing(rt)
}

fn main(rt: HostRuntime) -> anyhow::Result<()> {
    run(&rt)
}
