ghost use Rattle.std.specs.Prelude.{◌≡◌, cond, pos};
ghost use Rattle.csl.specs.Numbers.{Held, held, calculate, plus, minus, times, quot, quotient};

use std::marker::Model;
use std::ops::{Add, Div, Mul, Sub};

// The ends of the language's numbers.
pub(crate) const BOTTOM: i64 = -1_000_000_000;

pub(crate) const TOP: i64 = 1_000_000_000;

// A number of the language. What is computed of such numbers is held at both ends.
#[derive(Clone, Copy, Debug, PartialEq, Eq)]
pub struct Number {
    value: i64,
}

impl Model for Number {
    ghost use Rattle.std.specs.Prelude.{ℤ};
    ghost use Rattle.csl.specs.Numbers.{Held};

    ghost Value = { ℤ };

    ghost view = { λ n. n.value };

    ghost invariant = { λ n. Held n.value };

    ghost inverse = { λ z. record { value = z } };
}

impl Number {
    // x, or the end of the range that it is beyond.
    pub fn held(x: i64) -> Self
        ensures { result ≡ held x }
    {
        Number {
            value: x.clamp(BOTTOM, TOP),
        }
    }

    pub fn get(self) -> i64
        ensures { (result ≡ self) × Held result }
    {
        self.value
    }
}

// A truth is 0 or 1.
impl From<bool> for Number {
    ghost from_gives = { λ b z. z ≡ cond b (pos 1) (pos 0) };

    fn from(b: bool) -> Number {
        Number::held(i64::from(b))
    }
}

impl Add for Number {
    type Output = Number;

    ghost add_gives = { λ a b r. r ≡ calculate plus a b };

    fn add(self, other: Number) -> Number {
        Number::held(self.value + other.value)
    }
}

impl Sub for Number {
    type Output = Number;

    ghost sub_gives = { λ a b r. r ≡ calculate minus a b };

    fn sub(self, other: Number) -> Number {
        Number::held(self.value - other.value)
    }
}

impl Mul for Number {
    type Output = Number;

    ghost mul_gives = { λ a b r. r ≡ calculate times a b };

    fn mul(self, other: Number) -> Number {
        Number::held(self.value * other.value)
    }
}

impl Div for Number {
    type Output = Number;

    ghost div_gives = { λ a b r. r ≡ calculate quot a b };

    fn div(self, other: Number) -> Number {
        Number {
            value: quotient(self.value, other.value),
        }
    }
}

// Rounded down, also where it is below 0; by 0 it is 0. With both signs turned it is the same.
fn quotient(a: i64, b: i64) -> i64
    requires { Held a × Held b }
    ensures { result ≡ quotient a b }
{
    if b > 0 {
        a.div_euclid(b)
    } else if b < 0 {
        (-a).div_euclid(-b)
    } else {
        0
    }
}
