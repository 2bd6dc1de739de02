// The units of a table: what their cells hold to, and the parties of a waiting unit.
#![tactic(auto)]

ghost use Rattle.std.specs.Prelude.{◌≡◌, List, ℕ, ◌+◌, ◌≤◌, ◌<◌, length};
ghost use Rattle.csl.specs.Lists.{all};
ghost use Rattle.csl.specs.Decode.{tys_of};
ghost use Rattle.csl.specs.Bytes.{kind_number};
ghost use Rattle.csl.specs.Parties.{bits_of};
ghost use Rattle.csl.specs.Table.{is_zero, stands_for, stand_for};
ghost use Rattle.kinds.specs.Kinds.{sort_in};
ghost use Rattle.places.specs.Sight.{types_in};
ghost use Rattle.units.specs.Cells.{number_below, parties_in, PartiesRead};
ghost use Rattle.units.specs.Blames.{WholeIn, PartiesAre};
ghost use Rattle.units.specs.Units.{CellsRead, FoundThere, LocatedIs, WaitingIs};

use arrayvec::ArrayVec;
use cells::{FIRST_PARAM, FIRST_VALUE, Sight, UNIT_CELLS};
use kinds::WaitKind;
use octets::{byte, kind, record_end};
use parties::{PARAMS_FROM, PartySet};
use places::{Accepted, Located, locate};
use records::values::values_ok;
use records::{Agreement, Template, first_clause, sides_at};

// Behind a unit's kind stand its place and its time, then its party parameters, then its values: of these cells where
// the parameters and the values begin, and how many there are. (They are a slice: a reference to an array would need an
// `unwrap` at each place.)
const PARAMS_AT: usize = FIRST_PARAM - 1;

const VALUES_AT: usize = FIRST_VALUE - 1;

const CELLS: usize = UNIT_CELLS - 1;

// A template has at most so many party parameters.
const PARAMS: usize = 4;

// What a waiting unit shows: how many party parameters and values are in sight there, and its parties.
#[derive(Clone, Copy, Debug, PartialEq, Eq)]
pub struct Waiting {
    pub sight: Sight,
    pub parties: PartySet,
}

// A cell as a number below `end`, where it is one.
pub fn number_below(z: i64, end: usize) -> Option<usize>
    ensures { result ≡ number_below end z }
{
    let n = usize::try_from(z).ok()?;
    (n < end).then_some(n)
}

// Every cell is zero: so is what they have of ones together. (No test in the loop, so that many cells are read at once:
// with `all`, which stops at a cell, a mark at 127 units takes 8.6 % more instructions.)
pub fn zeros(cells: &[i64]) -> bool
    ensures { result ≡ all is_zero cells.now }
{
    let mut ones = 0;
    for x in cells {
        ones |= *x;
    }
    ones == 0
}

// The parties that the cells are, where each is one.
fn party_cells(cells: &[i64], parties: usize) -> Option<ArrayVec<usize, PARAMS>>
    requires { length cells.now ≤ 4 }
    ensures { PartiesRead (parties_in parties cells.now) result }
{
    let mut own = ArrayVec::new();
    for z in cells {
        own.push(number_below(*z, parties)?);
    }
    Some(own)
}

// The party that a blame byte stands for: itself, or a parameter's. (No plainer as one with `activation`'s `blamed`,
// which is over cells: it would need the byte as either type, and a law for each.)
fn stands_for(b: usize, params: &[usize]) -> usize
    ensures { result ≡ stands_for params.now b }
{
    if b < PARAMS_FROM {
        b
    } else {
        params.get(b - PARAMS_FROM).copied().unwrap_or(0)
    }
}

// The parties of a run of blame bytes.
fn blame_bytes(s: &[u8], params: &[usize]) -> PartySet
    ensures { (result ≡ bits_of (stand_for params.now s.now)) × (result < 65_536) }
{
    let mut found = PartySet::empty();
    for b in s {
        found |= PartySet::of(stands_for(usize::from(*b), params));
    }
    found
}

// An instance has its template's declared parties and those of its blames, which end it.
fn instance_parties(agreement: &Agreement<'_>, s: &[u8], params: &[usize]) -> PartySet
    requires { WholeIn agreement.now s.now × (kind_number s.now ≡ 22) }
    ensures { PartiesAre agreement.now s.now params.now result }
{
    let number = byte(s, 4);
    let template = Template { agreement, number };
    let n = s.len() - template.param_count();
    let declared = PartySet::of_bits(template.declared_bits());
    declared | blame_bytes(&s[n..], params)
}

// The parties of a clause. (A record's kind is decided by its number: a rule of the project.)
fn clause_parties(agreement: &Agreement<'_>, s: &[u8], params: &[usize]) -> PartySet
    requires { WholeIn agreement.now s.now }
    ensures { PartiesAre agreement.now s.now params.now result }
{
    let k = kind(s);
    match k {
        17 => {
            let c = first_clause(s, k);
            let own = PartySet::of(stands_for(byte(s, 4), params));
            own | clause_parties(agreement, &s[c..], params)
        }
        18..=21 => {
            let (c, f) = sides_at(s, k);
            let left = clause_parties(agreement, &s[c..f], params);
            left | clause_parties(agreement, &s[f..], params)
        }
        22 => instance_parties(agreement, s, params),
        _ => PartySet::empty(),
    }
}

// The cells behind a unit's kind hold n parties, values of the types, and else zeros: the parties.
fn unit_cells(
    cells: &[i64],
    n: usize,
    types: &[u8],
    parties: usize,
) -> Option<ArrayVec<usize, PARAMS>>
    requires { (length cells.now ≡ 23) × (n ≤ 4) × (length types.now ≤ 16) }
    ensures { CellsRead parties n (tys_of types.now) cells.now result }
{
    let own = party_cells(&cells[PARAMS_AT..PARAMS_AT + n], parties)?;
    let is_sound = zeros(&cells[PARAMS_AT + n..VALUES_AT])
        && values_ok(types, &cells[VALUES_AT..CELLS], parties)
        && zeros(&cells[VALUES_AT + types.len()..CELLS]);
    is_sound.then_some(own)
}

// A waiting unit whose clause was found.
fn located_unit(
    accepted: &Accepted<'_>,
    place: usize,
    found: &Located,
    cells: &[i64],
) -> Option<Waiting>
    requires long { length cells.now ≡ 23 }
    requires there { FoundThere accepted.now place found.now.params (types_in found.now.sight) }
    ensures { LocatedIs accepted.now place found.now.params (types_in found.now.sight) cells.now result }
{
    let agreement = accepted.agreement();
    let types = found.sight.as_slice();
    let own = unit_cells(cells, found.params, types, agreement.parties())?;
    let bytes = agreement.bytes();
    let e = record_end(bytes, place);
    let parties = clause_parties(agreement, &bytes[place..e], &own);
    let sight = Sight::Waits {
        params: found.params,
        values: types.len(),
    };
    let unit = Waiting { sight, parties };
    parties.is_subset(accepted.mains()).then_some(unit)
}

// The cells behind the kind of a waiting unit, at the last reading time.
pub fn waiting_unit(
    accepted: &Accepted<'_>,
    time: usize,
    wait: WaitKind,
    cells: &[i64],
) -> Option<Waiting>
    requires { length cells.now ≡ 23 }
    ensures { WaitingIs accepted.now time (sort_in wait) cells.now result }
{
    let agreement = accepted.agreement();
    let place = usize::try_from(cells[0]).ok()?;
    let when = usize::try_from(cells[1]).ok()?;
    if !(agreement.start()..=time).contains(&when) {
        return None;
    }
    let found = locate(agreement, place)?;
    if found.wait == wait {
        located_unit(accepted, place, &found, cells)
    } else {
        None
    }
}
