// Where a clause is activated, and what is in sight there.
ghost use Rattle.std.specs.Prelude.{◌≡◌, ◌+◌, ◌-◌, ◌*◌, ◌≤◌, length};
ghost use Rattle.csl.specs.Bytes.{byte};
ghost use Rattle.residues.specs.Reduces.{farthest};

use cells::Values;
use records::{Agreement, BODY_DEPTH};

// The number that the templates are below which a clause may name, its byte place, its time, and the depths that are
// left within it.
#[derive(Clone, Copy, Debug, PartialEq, Eq)]
pub struct Site {
    pub below: usize,
    pub place: usize,
    pub a: usize,
    pub depth: usize,
}

impl Site {
    // The site of a part of the clause, at a time.
    pub fn inner(self, from: usize, a: usize) -> Site
        requires { (1 ≤ self.depth) × (self.place + from ≤ farthest) }
        ensures { result ≡ record { below = self.below; place = self.place + from; a = a; depth = self.depth - 1 } }
    {
        Site {
            place: self.place + from,
            a,
            depth: self.depth - 1,
            ..self
        }
    }

    // The site of its `then`, which may name other templates than it does.
    pub fn then(self, from: usize, a: usize, below: usize) -> Site
        requires { (1 ≤ self.depth) × (self.place + from ≤ farthest) }
        ensures { result ≡ record { below = below; place = self.place + from; a = a; depth = self.depth - 1 } }
    {
        Site {
            below,
            ..self.inner(from, a)
        }
    }

    // The site of the body of template k, which begins at a place.
    pub fn body(self, k: usize, place: usize) -> Site
        ensures { result ≡ record { below = k; place = place; a = self.a; depth = 22 } }
    {
        Site {
            below: k,
            place,
            a: self.a,
            depth: BODY_DEPTH,
        }
    }
}

// A clause at its site: its bytes, the party parameters and the values in sight. Few parameters are in sight, and the
// time is so near that no window within is far.
#[derive(Clone, Copy)]
pub struct Clause<'a> {
    pub agreement: &'a Agreement<'a>,
    pub site: Site,
    pub bytes: &'a [u8],
    pub params: &'a [i64],
    pub values: Values<'a>,
    ghost few: { site.below ≤ byte agreement.now 10 },
    ghost params_fit: { length params.now ≤ 4 },
    ghost shallow: { site.depth ≤ 23 },
    ghost soon: { site.a + 2_000_000_000 * (32 * site.below + site.depth) ≤ farthest },
}

// A clause that is activated: no byte of it or of its agreement is at a place that is far.
#[derive(Clone, Copy)]
pub struct Placed<'a> {
    pub clause: Clause<'a>,
    ghost near: { length clause.agreement.now ≤ farthest },
    ghost inside: { clause.site.place + length clause.bytes.now ≤ farthest },
}
