// Types of literals and of what operators make of their operands. An operator is the number of its record's kind: a
// record's kind is decided by a match on its number, a rule of the project.
ghost use Rattle.std.specs.Prelude.{◌≡◌};
ghost use Rattle.typing.specs.Types.{literal_type, not_type, operand_type, result_type, operation_type};

use kinds::Type;

// A literal of n bytes, with a type where it is allowed. (Whether it is allowed is a test and no case: as an Option of
// the type, each caller would make one for this to take apart.)
pub(crate) fn literal_type(s: &[u8], n: usize, allowed: bool, t: Type) -> Option<Type>
    ensures { result ≡ literal_type n s.now allowed t }
{
    (s.len() == n && allowed).then_some(t)
}

pub(crate) fn negated(t: Type) -> Option<Type>
    ensures { result ≡ not_type t }
{
    (t == Type::Truth).then_some(t)
}

// Kinds 37 to 43: the operands' type, given the left operand's.
fn operand_type(kind: usize, left: Type) -> Type
    ensures { result ≡ operand_type kind left }
{
    match kind {
        41 => Type::Truth,
        43 => left,
        _ => Type::Number,
    }
}

fn result_type(kind: usize) -> Type
    ensures { result ≡ result_type kind }
{
    match kind {
        41..=43 => Type::Truth,
        _ => Type::Number,
    }
}

pub(crate) fn operation_type(kind: usize, left: Type, right: Type) -> Option<Type>
    ensures { result ≡ operation_type kind left right }
{
    let wanted = operand_type(kind, left);
    (left == wanted && right == wanted).then_some(result_type(kind))
}
