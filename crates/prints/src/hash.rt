// What a hash of grams is.
ghost use Rattle.std.specs.Prelude.{◌≡◌, ℕ, List};
ghost use Rattle.prints.specs.Grams.{Gram, Rolls};

use order::Order;

// A hash of grams: functions that stand alone, known by their type. It gives each list of 1 to 64 codes, each of 1 to 1023, one value.
// Outside these ranges what it answers is free.
pub trait GramHash {
    type Value: Order;

    ghost value: { List ℕ → Self.Value };

    // The value of these codes.
    fn of(codes: &[u16]) -> Self::Value
        ensures { Gram codes.now → result ≡ value codes.now };

    // From the value of k codes, the first of which is `out`, to the value of the list without it and with `next` behind.
    fn roll(before: Self::Value, k: usize, out: u16, next: u16) -> Self::Value
        ensures { Rolls value before k out next result };
}
