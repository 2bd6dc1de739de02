// An accepted agreement.
ghost use Rattle.std.specs.Prelude.{◌≡◌};
ghost use Rattle.csl.specs.Parties.{bits_of};
ghost use Rattle.csl.specs.Check as check;
ghost use Rattle.csl.specs.Check.{mains_of};

use parties::PartySet;
use records::Agreement;
use std::marker::Model;

// An agreement that is accepted, with the parties of its main clause. Clauses see its bytes.
#[derive(Drop)]
pub struct Accepted<'a> {
    agreement: Agreement<'a>,
    mains: PartySet,
}

impl<'a> Model for Accepted<'a> {
    ghost use Rattle.std.specs.Prelude.{◌≡◌, List, ℕ};
    ghost use Rattle.csl.specs.Parties.{bits_of};
    ghost use Rattle.csl.specs.Check as check;
    ghost use Rattle.csl.specs.Check.{mains_of};

    ghost Value = { List ℕ };

    ghost view = { λ a. a.agreement };

    ghost invariant = { λ a. check.Accepted a.agreement × (a.mains ≡ bits_of (mains_of a.agreement)) };
}

impl<'a> Accepted<'a> {
    pub fn new(agreement: Agreement<'a>, mains: PartySet) -> Accepted<'a>
        requires accepted { check.Accepted agreement }
        requires mains { mains ≡ bits_of (mains_of agreement) }
        ensures { result ≡ agreement.entry }
    {
        Accepted { agreement, mains }
    }

    pub fn agreement(&self) -> &Agreement<'a>
        ensures { (result.now ≡ self.now) × check.Accepted self.now }
    {
        &self.agreement
    }

    pub fn mains(&self) -> PartySet
        ensures { (result ≡ bits_of (mains_of self.now)) × check.Accepted self.now }
    {
        self.mains
    }
}
