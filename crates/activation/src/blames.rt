// The parties that blame bytes stand for.
ghost use Rattle.std.specs.Prelude.{◌≡◌, ◌≤◌, length, take};
ghost use Rattle.cells.specs.Reduce.{blamed_cell, blamed_cells, blame_bits};

use parties::{PARAMS_FROM, PartySet};

// The cell of the party that blame byte b stands for: a party, or a party parameter. (No plainer as one with its like
// in `units`: over i64 and usize it would need the byte as either type, and a law for each.)
fn blamed(params: &[i64], b: usize) -> i64
    ensures { result ≡ blamed_cell params.now b }
{
    if b < PARAMS_FROM {
        b as i64
    } else {
        params.get(b - PARAMS_FROM).copied().unwrap_or(0)
    }
}

// The party that blame byte b stands for, where there is such a party.
pub fn blame_bits(params: &[i64], b: usize) -> PartySet
    ensures { result ≡ blame_bits params.now b }
{
    usize::try_from(blamed(params, b)).map_or(PartySet::empty(), PartySet::of)
}

// The cells of the parties that blame bytes stand for. (By index: under a `zip` of lent cells the loop's facts name the
// cells that it gave, not those that are filled.)
pub fn blames(bytes: &[u8], params: &[i64], cells: &mut [i64])
    requires { length bytes.now ≤ length cells.old }
    ensures { take (length bytes.now) cells.new ≡ blamed_cells params.now bytes.now }
{
    for i in 0..bytes.len() {
        cells[i] = blamed(params, usize::from(bytes[i]));
    }
}
