// The clauses of an agreement and the clauses within them, each at its site. (A literal of a struct with ghost fields
// gives each field: `..base` was tried, and is refused there.)
ghost use Rattle.std.specs.Prelude.{◌≡◌, ◌+◌, ◌-◌, ◌*◌, ◌≤◌, ◌<◌, length};
ghost use Rattle.csl.specs.Bytes.{byte, part};
ghost use Rattle.arith.specs.Near.{latest};
ghost use Rattle.activation.specs.Leads.{whole_site, inner_site, then_site, body_site, StandsAt};
ghost use Rattle.residues.specs.Reduces.{farthest};
ghost use Rattle.records.specs.Index.{body_bytes};

use crate::sites::{Clause, Placed, Site};
use cells::Values;
use records::{Agreement, MAIN_DEPTH, Template};

impl<'a> Placed<'a> {
    // A clause that stands within no other: the main clause, or a unit's.
    pub fn new(
        agreement: &'a Agreement<'a>,
        place: usize,
        a: usize,
        bytes: &'a [u8],
        params: &'a [i64],
        values: Values<'a>,
    ) -> Placed<'a>
        requires { (length agreement.now ≤ farthest) × (place + length bytes.now ≤ farthest) × (a ≤ latest) × (length params.now ≤ 4) }
        ensures { StandsAt agreement.now (whole_site agreement.now place a) bytes.now params.now values.entry.cells.now result.clause }
    {
        let site = Site {
            below: agreement.template_count(),
            place,
            a,
            depth: MAIN_DEPTH,
        };
        Placed {
            clause: Clause {
                agreement,
                site,
                bytes,
                params,
                values,
            },
        }
    }

    // The clause in a part of its bytes, at a time.
    pub fn part(&self, from: usize, to: usize, a: usize) -> Placed<'a>
        requires { let c = self.now.clause in (1 ≤ c.site.depth) × (from ≤ to) × (to ≤ length c.bytes.now)
            × (a ≤ c.site.a + 2_000_000_000) }
        ensures { let c = self.now.clause in StandsAt c.agreement.now (inner_site c.site from a)
            (part c.bytes.now from to) c.params.now c.values.cells.now result.clause }
    {
        let Clause {
            agreement,
            site,
            bytes,
            params,
            values,
        } = self.clause;
        Placed {
            clause: Clause {
                agreement,
                site: site.inner(from, a),
                bytes: &bytes[from..to],
                params,
                values,
            },
        }
    }

    // The `then` in a part of its bytes, which may name any template, with values of its own in sight.
    pub fn then(&'a self, from: usize, to: usize, a: usize, values: Values<'a>) -> Placed<'a>
        requires { let c = self.now.clause in (1 ≤ c.site.depth) × (from ≤ to) × (to ≤ length c.bytes.now)
            × (a ≤ latest) }
        ensures { let c = self.now.clause in StandsAt c.agreement.now
            (then_site c.site from a (byte c.agreement.now 10)) (part c.bytes.now from to) c.params.now
            values.entry.cells.now
            result.clause × (byte c.agreement.now 10 ≤ 32) }
    {
        let Clause {
            agreement,
            site,
            bytes,
            params,
            ..
        } = self.clause;
        Placed {
            clause: Clause {
                agreement,
                site: site.then(from, a, agreement.template_count()),
                bytes: &bytes[from..to],
                params,
                values,
            },
        }
    }

    // The body of template k, with parties and values of its own in sight.
    pub fn body(&'a self, k: usize, params: &'a [i64], values: Values<'a>) -> Placed<'a>
        requires { (k < self.now.clause.site.below) × (length params.now ≤ 4) }
        ensures { let c = self.now.clause in StandsAt c.agreement.now (body_site c.agreement.now c.site k)
            (body_bytes c.agreement.now k) params.now values.entry.cells.now result.clause }
    {
        let Clause {
            agreement,
            site,
            ..
        } = self.clause;
        let span = Template {
            agreement,
            number: k,
        }
        .body_span();
        Placed {
            clause: Clause {
                agreement,
                site: site.body(k, span.start),
                bytes: &agreement.bytes()[span],
                params,
                values,
            },
        }
    }
}
