// Arithmetic on the language's numbers.
#![tactic(auto)]

ghost use Rattle.std.specs.Prelude.{◌≡◌};
ghost use Rattle.csl.specs.Numbers.{in_range};

mod number;

pub use number::Number;
use number::{BOTTOM, TOP};

// x is one of the language's numbers.
pub fn in_range(x: i64) -> bool
    ensures { result ≡ in_range x }
{
    (BOTTOM..=TOP).contains(&x)
}
