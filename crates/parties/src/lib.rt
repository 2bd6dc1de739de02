// Sets of parties by bit: bit n for party n, bit 16 + n for the party parameter n.
#![tactic(auto)]

ghost use Rattle.std.specs.Prelude.{◌≡◌, ◌^◌, ◌<◌};

mod breach;
mod set;

pub use breach::Breach;
pub use set::PartySet;

// As many parties there are at most; the blame bytes from PARAMS_FROM on are party parameters.
const PARTIES: usize = 16;

pub const PARAMS_FROM: usize = 128;

// Bit n alone.
fn bit(n: usize) -> usize
    requires { n < 20 }
    ensures { result ≡ 2 ^ n }
{
    1 << n
}
