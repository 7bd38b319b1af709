// The finite check of the definitions, and tests of the edges.
#![tactic(auto)]

ghost use Rattle.worked.specs.Worked.{Worked};

#[cfg(test)]
mod sources;

// That the definitions give what was worked out by hand.
pub fn worked_cases()
    ensures { Worked }
{}
