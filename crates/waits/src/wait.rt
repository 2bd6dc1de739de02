// A wait, with what is in sight there.
ghost use Rattle.std.specs.Prelude.{◌≤◌};
ghost use Rattle.residues.specs.Reduces.{farthest};

use cells::Values;

// A wait: the record that it stands in, where the type that it wants stands there, the values in sight, the time, and
// how deep its expressions may be.
#[derive(Clone, Copy, Debug, PartialEq, Eq)]
pub struct Wait<'a> {
    pub bytes: &'a [u8],
    pub at: usize,
    pub values: Values<'a>,
    pub a: usize,
    pub depth: usize,
    ghost in_front: { at ≤ 5 },
    ghost soon: { a ≤ farthest },
}
