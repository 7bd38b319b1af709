// Longest runs: what two token lists share, and the guarantee that no long run goes without a pair of fingerprints.
//
// Tokens are seen only through `same` and their codes, and of `same` only one fact is used: same tokens have equal codes.
#![tactic(auto)]

ghost use Rattle.runs.specs.Passages.{Guarantee, PrintsListed};

use prints::hash::GramHash;

pub mod codes;
pub mod longest;

// For every hash: every longest run of t or more tokens holds a pair of chosen places with equal values, equally far from its starts.
pub fn guarantee<H: GramHash>()
    ensures { Guarantee H.GramHash.value H.Value.Ord.cmp }
{}

// For every hash: the chosen places of a token list, computed, are exactly those of the relation.
pub fn prints_listed<H: GramHash>()
    ensures { PrintsListed H.GramHash.value H.Value.Ord.cmp }
{}

#[cfg(test)]
mod tests {
    use crate::codes::TokenCodes;
    use crate::longest::{Alignment, Run};
    use prints::walk::Codes;
    use tokens::token::{Class, Token};

    fn letter(code: u16) -> Token {
        Token {
            code,
            class: Class::Mark,
            from: 0,
            to: 1,
        }
    }

    #[test]
    fn grams_are_compared_to_their_end(rt: HostRuntime) {
        let xs = &[letter(1), letter(2), letter(3), letter(4)];
        let ys = &[letter(2), letter(3), letter(5), letter(4)];
        let second = Alignment { xs, i: 1, ys, j: 0 };
        assert!(rt; second.same_grams(2));
        assert!(rt; !second.same_grams(3));
        let last = Alignment { xs, i: 3, ys, j: 3 };
        assert!(rt; !last.same_grams(2));
        assert!(rt; last.same_grams(1));
    }

    #[test]
    fn a_run_grows_to_both_sides(rt: HostRuntime) {
        let xs = &[letter(9), letter(1), letter(2), letter(3), letter(4)];
        let ys = &[letter(1), letter(2), letter(3), letter(5)];
        let threes = Alignment { xs, i: 3, ys, j: 2 };
        assert_eq!(rt; threes.same_before(), 2);
        assert_eq!(rt; threes.same_from(), 1);
        let three_and_two = Alignment { xs, i: 3, ys, j: 1 };
        assert_eq!(rt; three_and_two.run_around(1), None);
        let run = Run {
            left: 1,
            right: 0,
            len: 3,
        };
        let twos = Alignment { xs, i: 2, ys, j: 1 };
        assert_eq!(rt; twos.run_around(2), Some(run));
    }

    #[test]
    fn tokens_are_read_as_codes(rt: HostRuntime) {
        let xs = [letter(9), letter(1)];
        let codes = TokenCodes { all: &xs };
        assert_eq!(rt; codes.len(), 2);
        assert_eq!(rt; codes.code(1), 1);
        assert_eq!(rt; codes.code(2), 0);
    }
}
