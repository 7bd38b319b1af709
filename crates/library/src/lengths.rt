// The lengths of a plan.
ghost use Rattle.std.specs.Prelude.{◌≡◌, ◌+◌, ◌-◌, ◌≤◌};

use prints::winnowing::Winnowing;

// k and t of a plan without the mark of its hash: a library keeps these, and so is `Send` and `Sync` whatever the type that names its hash.
#[derive(Drop)]
pub struct Lengths {
    pub k: usize,
    pub t: usize,
    ghost low: { 1 ≤ k },
    ghost high: { k ≤ 64 },
    ghost least: { k ≤ t },
    ghost most: { t ≤ 256 },
}

impl Lengths {
    // Windows are as long that a run of t tokens fills one.
    pub fn winnowing(&self) -> Winnowing
        ensures gram { result.k ≡ self.now.k }
        ensures window { result.w ≡ self.now.t - self.now.k + 1 }
    {
        Winnowing {
            k: self.k,
            w: self.t - self.k + 1,
        }
    }
}
