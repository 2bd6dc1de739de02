ghost use Rattle.std.specs.Prelude.{◌≡◌, List, [], ◌∷◌, ℕ, ◌^◌, ◌%◌, ◌≤◌, ◌<◌, eqb, ltb, cond, Some, None};
ghost use Rattle.std.specs.Int.Bits.{bit_or};
ghost use Rattle.std.specs.Int.Count.{ones};
ghost use Rattle.csl.specs.Lists.{all};
ghost use Rattle.csl.specs.Parties.{member_count, members, bits_of};
ghost use Rattle.parties.specs.Masks.{mask_of, may_blame, ValidMembers, Union};

use super::{PARAMS_FROM, PARTIES, bit};
use std::marker::Model;
use std::ops::{BitOr, BitOrAssign};

// A set of parties by bit: bit n for party n, bit 16 + n for the party parameter n. Clauses see the bits, any number.
#[derive(Clone, Copy, Debug, PartialEq, Eq)]
pub struct PartySet {
    bits: usize,
}

impl Model for PartySet {
    ghost use Rattle.std.specs.Prelude.{ℕ};

    ghost Value = { ℕ };

    ghost view = { λ a. a.bits };

    ghost inverse = { λ n. record { bits = n } };
}

impl PartySet {
    pub fn empty() -> Self
        ensures { result ≡ 0 }
    {
        PartySet { bits: 0 }
    }

    // Party p alone, or the empty set where there is no such party.
    pub fn of(p: usize) -> Self
        ensures { (result ≡ bits_of (p ∷ [])) × (result < 65_536) }
    {
        if p < PARTIES {
            PartySet { bits: bit(p) }
        } else {
            PartySet::empty()
        }
    }

    pub fn of_bits(bits: usize) -> Self
        ensures { result ≡ bits }
    {
        PartySet { bits }
    }

    // The party or party parameter of a blame byte, where the byte is allowed.
    pub fn of_blame(b: usize, parties: usize, params: usize) -> Option<Self>
        requires { (parties ≤ 16) × (params ≤ 4) }
        ensures { result ≡ cond (may_blame parties params b) (Some (mask_of (b ∷ []))) None }
    {
        if b < parties {
            Some(PartySet { bits: bit(b) })
        } else if (PARAMS_FROM..PARAMS_FROM + params).contains(&b) {
            let n = PARTIES + (b - PARAMS_FROM);
            Some(PartySet { bits: bit(n) })
        } else {
            None
        }
    }

    pub fn bits(self) -> usize
        ensures { result ≡ self }
    {
        self.bits
    }

    // How many members there are, each counted once, party parameters too: "the count of ones that the language has".
    pub fn count(self) -> usize
        ensures { (result ≡ ones self) × ((ps : List ℕ) → ValidMembers ps → self ≡ mask_of ps → result ≡ member_count ps) }
    {
        usize::count_ones(self.bits) as usize
    }

    pub fn is_empty(self) -> bool
        ensures { result ≡ eqb self 0 }
    {
        self == PartySet::empty()
    }

    // Every member is one of the other set.
    pub fn is_subset(self, other: PartySet) -> bool
        ensures { result ≡ eqb (bit_or self other) other }
    {
        self | other == other
    }

    // The parties alone, without the party parameters.
    pub fn constants(self) -> PartySet
        ensures { (result ≡ self % 65_536) × (result < 65_536) × ((ps : List ℕ) → self ≡ mask_of ps → result ≡ bits_of ps) }
    {
        PartySet {
            bits: self.bits % 65_536,
        }
    }

    // Every party of a declared set is below k.
    pub fn below(self, k: usize) -> bool
        requires { (self < 65_536) × (k ≤ 16) }
        ensures { (result ≡ ltb self (2 ^ k)) × (result ≡ all (λ (p : ℕ). ltb p k) (members self)) }
    {
        bit(k) > self.bits
    }
}

impl BitOr for PartySet {
    type Output = PartySet;

    ghost bitor_gives = { Union };

    fn bitor(self, other: PartySet) -> PartySet {
        PartySet {
            bits: self.bits | other.bits,
        }
    }
}

impl BitOrAssign for PartySet {
    ghost bitor_assign_gives = { Union };

    fn bitor_assign(&mut self, other: PartySet) {
        *self = *self | other;
    }
}
