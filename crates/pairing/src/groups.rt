// The groups of equal value that the index is made of, and the reported file's part of a group.
ghost use Rattle.std.specs.Prelude.{◌≡◌, ◌<◌, ◌≤◌, length, nat_eq};
ghost use Rattle.std.specs.Ordering.{is_eq};
ghost use Rattle.std.specs.List.{prefix_len};
ghost use Rattle.pairing.specs.Groups.{first_group, others_first};

use model::fingerprint::Fingerprint;
use order::Order;

// How many entries of the value come first.
// This count and the two below are chains of their own, since a function over their tests would be the same two methods again.
fn value_first<V: Order>(prints: &[Fingerprint<V>], value: V) -> usize
    ensures count { result ≡ prefix_len (λ y. is_eq (V.Ord.cmp y.value value)) prints.now }
    ensures within { result ≤ length prints.now }
{
    prints
        .iter()
        .take_while(|x| x.value.cmp(&value).is_eq())
        .count()
}

// How many entries have the value of the first one, up to the first entry of another value.
pub fn first_group<V: Order>(prints: &[Fingerprint<V>]) -> usize
    requires { 0 < length prints.now }
    ensures count { result ≡ first_group V.Ord.cmp prints.now }
    ensures some { 1 ≤ result }
    ensures within { result ≤ length prints.now }
{
    value_first(prints, prints[0].value)
}

// How many entries of other files come first.
pub fn others_first<V: Order>(group: &[Fingerprint<V>], number: u16) -> usize
    ensures count { result ≡ others_first number group.now }
    ensures within { result ≤ length group.now }
{
    group.iter().take_while(|x| x.file != number).count()
}

// How many entries of the file come first.
pub fn own_first<V: Order>(group: &[Fingerprint<V>], number: u16) -> usize
    ensures count { result ≡ prefix_len (λ b. nat_eq b.file number) group.now }
    ensures within { result ≤ length group.now }
{
    group.iter().take_while(|x| x.file == number).count()
}
