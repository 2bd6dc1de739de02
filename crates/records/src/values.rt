// Values of a type, which a byte names.
ghost use Rattle.std.specs.Prelude.{◌≡◌, ◌≤◌, length};
ghost use Rattle.csl.specs.Syntax.{party};
ghost use Rattle.csl.specs.Decode.{is_type, ty_of, tys_of};
ghost use Rattle.kinds.specs.Kinds.{ty_in};
ghost use Rattle.records.specs.TypedValues.{value_ok, values_ok};

use arith::in_range;
use kinds::Type;

pub(crate) fn is_type(byte: u8) -> bool
    ensures { result ≡ is_type byte }
{
    Type::try_from(usize::from(byte)).is_ok()
}

// The type that a type byte names. A byte that names none reads as a party's, as the definition reads it.
pub fn type_of(byte: u8) -> Type
    ensures { ty_in result ≡ ty_of byte }
{
    Type::try_from(usize::from(byte)).unwrap_or(Type::Party)
}

// The value is one of the numbers from 0 up to the end, as the parties are.
fn below(value: i64, end: usize) -> bool
    ensures { result ≡ value_ok end party value }
{
    usize::try_from(value).is_ok_and(|n| n < end)
}

// The value is of the type, in its range.
fn value_ok(ty: Type, value: i64, parties: usize) -> bool
    ensures { result ≡ value_ok parties (ty_in ty) value }
{
    match ty {
        Type::Number => in_range(value),
        Type::Truth => below(value, 2),
        Type::Party => below(value, parties),
    }
}

// Each value is of its type; those behind them do not matter.
pub fn values_ok(types: &[u8], values: &[i64], parties: usize) -> bool
    requires { length types.now ≤ length values.now }
    ensures { result ≡ values_ok parties (tys_of types.now) values.now }
{
    types
        .iter()
        .zip(values)
        .all(|(&t, &value)| value_ok(type_of(t), value, parties))
}
