// Refusal 3: types of expressions, typing and parties of clauses.
#![tactic(auto)]

ghost use Rattle.std.specs.Prelude.{◌≡◌, ◌<◌};
ghost use Rattle.csl.specs.Bytes as bytes;
ghost use Rattle.csl.specs.Decode.{agreement_of};
ghost use Rattle.csl.specs.Typing as typing;
ghost use Rattle.typing.specs.Clauses.{typed_body, template_typed, templates_typed, holds, typed_as};

mod names;
mod operators;

use names::Names;
use parties::PartySet;
use records::{Agreement, BODY_DEPTH, MAIN_DEPTH, Template};

// The parties of a template's body, where it is typed.
fn body_parties(template: &Template<'_>) -> Option<PartySet>
    ensures { result ≡ typed_as (typed_body template.now.agreement.now template.now.number) }
{
    let names = Names {
        agreement: template.agreement,
        params: template.param_count(),
    };
    names.clause_parties(template.value_types(), template.body(), BODY_DEPTH)
}

// The template declares parties below the count, and its body's constant parties are among them.
fn template_typed(template: &Template<'_>) -> bool
    ensures { result ≡ holds (template_typed template.now.agreement.now template.now.number) }
{
    let declared = PartySet::of_bits(template.declared_bits());
    declared.below(template.agreement.parties())
        && body_parties(template).is_some_and(|body| body.constants().is_subset(declared))
}

fn templates_typed(agreement: &Agreement<'_>) -> bool
    ensures { result ≡ holds (templates_typed agreement.now 0) }
{
    (0..agreement.template_count()).all(
        |number|
            requires { number < bytes.byte agreement.now 10 }
        { template_typed(&Template { agreement, number }) },
    )
}

// The main clause's parties; refusal 3 where this is untyped.
pub fn agreement_parties(agreement: &Agreement<'_>) -> Option<PartySet>
    ensures { result ≡ typed_as (typing.typed (agreement_of agreement.now)) }
{
    if !templates_typed(agreement) {
        return None;
    }
    let main = agreement.main();
    let names = Names {
        agreement,
        params: 0,
    };
    names.clause_parties(&[], main, MAIN_DEPTH)
}
