// The polynomial hash (Karp and Rabin, 1987).
ghost use Rattle.std.specs.Prelude.{◌≡◌, ◌+◌, ◌-◌, ◌*◌, ◌%◌, ◌^◌, ◌≤◌};
ghost use Rattle.prints.specs.Hashes.{prime, polynomial};

use crate::hash::GramHash;

const PRIME: u64 = 2147483647;

// What a leaving code is multiplied by: the prime less the remainder of 1000^k, at k for 1 to 63 and at 0 for 64.
const LEAVING: [u32; 64] = [
    1308565368, 2147482647, 2146483647, 1147483647, 727379502, 1530029314, 1020957336, 902603675,
    660543260, 1265780371, 912502917, 1969850672, 608167701, 429828899, 332169600, 1457118362,
    1124449334, 1315386619, 1126627036, 1345604972, 1280208978, 308724388, 1634226479, 2138907280,
    13567588, 682686118, 1933801901, 1066618700, 1466811088, 79757099, 300204061, 1703834067,
    879534929, 1214117377, 789116445, 989946551, 2104073380, 1686889587, 1114924105, 380092207,
    2135085128, 486382882, 1051577778, 1458274617, 133220687, 76700886, 1538958355, 1360063748,
    706599449, 77329137, 19725708, 398355177, 1070702305, 1255448794, 1318344152, 1936676389,
    1793623053, 474207755, 1761352660, 416069460, 1605116129, 945844691, 951886320, 551064379,
];

// The factor of the code that leaves a gram of k codes.
fn leaving(k: usize) -> u32
    ensures { 1 ≤ k → k ≤ 64 → result ≡ prime - 1000 ^ k % prime }
{
    LEAVING[k % 64]
}

// From the value of some codes to that of these and one more.
fn with_code(value: u32, c: u16) -> u32
    ensures { result ≡ (value * 1000 + c) % prime }
{
    ((u64::from(value) * 1000 + u64::from(c)) % PRIME) as u32
}

// c1 × 1000^(k−1) + … + ck modulo 2147483647, ordered as numbers.
pub struct Polynomial;

impl GramHash for Polynomial {
    type Value = u32;

    ghost value = { polynomial };

    fn of(codes: &[u16]) -> u32 {
        codes.iter().fold(0, |sum, c| with_code(sum, *c))
    }

    fn roll(before: u32, k: usize, out: u16, next: u16) -> u32 {
        let gone = u64::from(out) * u64::from(leaving(k));
        ((u64::from(before) * 1000 + u64::from(next) + gone) % PRIME) as u32
    }
}
