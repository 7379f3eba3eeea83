// The margin of a link (document 02, No. 7): how large the quotients w of m = E2 + 5 × w are.
#![tactic(auto)]

ghost use Rattle.std.specs.Prelude.{◌≡◌};
ghost use Rattle.margins.specs.Largest.{largest_size};

use ring::Quotients;

// The largest size of all. It looks at each of them.
pub fn largest_size(w: Quotients) -> u16
    ensures { result ≡ largest_size w }
{
    w.iter().fold(0, |largest, x| largest.max(x.unsigned_abs()))
}
