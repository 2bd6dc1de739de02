// The table before a step: a first one that is lent beside the one to be written, or else that very one.
#![tactic(auto)]

ghost use Rattle.std.specs.Prelude.{◌≡◌};
ghost use Rattle.settling.specs.Before.{read_from};

use cells::TABLE_CELLS;
use residues::copy;

// The table that is read.
pub fn table_before<'t>(
    first: Option<&'t [i64; TABLE_CELLS]>,
    table: &'t [i64; TABLE_CELLS],
) -> &'t [i64; TABLE_CELLS]
    ensures { result.now ≡ read_from first.entry table.now }
{
    first.unwrap_or(table)
}

// The table to be written becomes the one that is read.
#[tactic(auto, using(crate::proofs::Units::copied_whole))]
pub fn copy_before(first: Option<&[i64; TABLE_CELLS]>, table: &mut [i64; TABLE_CELLS])
    ensures { table.new ≡ read_from first.entry table.old }
{
    if let Some(first) = first {
        copy(table, first);
    }
}
