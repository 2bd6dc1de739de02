ghost use Rattle.std.specs.Prelude.{◌≡◌, ◌≤◌, ◌<◌, length, IfSome, cond, Some, None, List, [], ◌∷◌};
ghost use Rattle.csl.specs.Bytes as bytes;
ghost use Rattle.csl.specs.Decode.{expr, tys_of, wait_at};
ghost use Rattle.csl.specs.Typing.{type_expr};
ghost use Rattle.records.specs.Index.{Lists};
ghost use Rattle.typing.specs.Types.{type_as, sight_type, record_kind, leaf_type};
ghost use Rattle.typing.specs.Clauses.{seen_as, then_in, is_typed, wait_typed, wait_in, JoinedSight};
ghost use Rattle.typing.specs.Clauses.{arguments_in, blames_of, typed_in, clause_of, instance_in};
ghost use Rattle.typing.specs.Clauses.{typed_as, fulfilled_as, sides_as};
ghost use Rattle.kinds.specs.Kinds.{ty_in};
ghost use Rattle.parties.specs.Masks.{mask_of, may_blame};

use super::operators::{literal_type, negated, operation_type};
use arith::in_range;
use arrayvec::ArrayVec;
use kinds::Type;
use octets::{byte, is_record, kind, record_end, signed32};
use parties::PartySet;
use records::{Agreement, IN_SIGHT, Template, first_clause, sides_at, values};

// The types of the values in sight, a byte for each, as the format has them.
type TypesInSight = ArrayVec<u8, IN_SIGHT>;

// The byte that names the numbers.
const NUMBER: u8 = 1;

// What a clause may name beside the values in sight: the readings, parties and templates of its agreement, and so many
// party parameters. (The types in sight go beside them: a struct with them in it would be lent too long where
// `clause_parties` calls itself. So do a record and the depth left, which are new at each step.)
#[derive(Clone, Copy)]
pub(crate) struct Names<'a> {
    pub(crate) agreement: &'a Agreement<'a>,
    pub(crate) params: usize,
    ghost listed: { Lists agreement.now },
    ghost few: { params ≤ 4 },
}

// The kind of the record that s is, where it is one and there is depth left.
fn record_kind(s: &[u8], depth: usize) -> Option<usize>
    ensures { result ≡ record_kind depth s.now }
{
    (depth > 0 && is_record(s)).then_some(kind(s))
}

// The type of the value in sight at i.
fn sight_type(types: &[u8], i: usize) -> Option<Type>
    ensures { result ≡ sight_type types.now i }
{
    let byte = types.get(i)?;
    Some(values::type_of(*byte))
}

// The types in sight, a reading's, and a number behind them, where they are at most 16.
fn join_sight(types: &[u8], values: &[u8]) -> Option<TypesInSight>
    ensures { JoinedSight types.now values.now result }
{
    let mut seen = TypesInSight::new();
    seen.try_extend_from_slice(types).ok()?;
    seen.try_extend_from_slice(values).ok()?;
    seen.try_push(NUMBER).ok()?;
    Some(seen)
}

// Kind 16.
fn fulfilled_parties(s: &[u8]) -> Option<PartySet>
    ensures { result ≡ fulfilled_as (length s.now) }
{
    (s.len() == 4).then_some(PartySet::empty())
}

// The two sides of an `or`, kind 21, together have at most one member.
fn sides(kind: usize, a: PartySet, b: PartySet) -> Option<PartySet>
    ensures { result ≡ sides_as kind a b }
{
    let both = a | b;
    // here and below: a record's kind is decided by its number, a rule of the project
    match kind {
        21 if both.count() > 1 => None,
        _ => Some(both),
    }
}

impl<'a> Names<'a> {
    // A clause's parties, where it is typed: `types` are in sight.
    pub(crate) fn clause_parties(&self, types: &[u8], s: &[u8], depth: usize) -> Option<PartySet>
        ensures { result ≡ typed_as (typed_in self.now.agreement.now self.now.params types.now (clause_of self.now.agreement.now depth s.now)) }
    {
        let kind = record_kind(s, depth)?;
        let d = depth - 1;
        match kind {
            16 => fulfilled_parties(s),
            17 => {
                let blamed = self.blamed(byte(s, 4))?;
                let seen = self.wait_sight(types, s, 5, d)?;
                let c = first_clause(s, kind);
                let then = self.clause_parties(&seen, &s[c..], d)?;
                Some(blamed | then)
            }
            18 => {
                let seen = self.wait_sight(types, s, 4, d)?;
                let (c, f) = sides_at(s, kind);
                let then = self.clause_parties(&seen, &s[c..f], d)?;
                let other = self.clause_parties(types, &s[f..], d)?;
                Some(then | other)
            }
            19 if !self.part_typed(types, &s[4..record_end(s, 4)], Type::Truth, d) => None,
            19..=21 => {
                let (c, f) = sides_at(s, kind);
                let left = self.clause_parties(types, &s[c..f], d)?;
                let right = self.clause_parties(types, &s[f..], d)?;
                sides(kind, left, right)
            }
            22 => self.instance_parties(types, s, d),
            _ => None,
        }
    }

    // Kinds 32 to 35.
    fn leaf_type(&self, types: &[u8], s: &[u8], kind: usize) -> Option<Type>
        ensures { result ≡ leaf_type (bytes.byte self.now.agreement.now 8) types.now kind s.now }
    {
        let n = byte(s, 4);
        match kind {
            32 => literal_type(s, 8, in_range(signed32(s, 4)), Type::Number),
            33 => literal_type(s, 5, n <= 1, Type::Truth),
            34 => literal_type(s, 5, n < self.agreement.parties(), Type::Party),
            _ if s.len() == 5 => sight_type(types, n),
            _ => None,
        }
    }

    // The type of an expression.
    fn type_of(&self, types: &[u8], s: &[u8], depth: usize) -> Option<Type>
        ensures { result ≡ type_as (type_expr (bytes.byte self.now.agreement.now 8) (tys_of types.now) (expr depth s.now)) }
    {
        let kind = record_kind(s, depth)?;
        let d = depth - 1;
        match kind {
            32..=35 => self.leaf_type(types, s, kind),
            36 => negated(self.type_of(types, &s[4..], d)?),
            37..=43 => {
                let cut = record_end(s, 4);
                let left = self.type_of(types, &s[4..cut], d)?;
                let right = self.type_of(types, &s[cut..], d)?;
                operation_type(kind, left, right)
            }
            _ => None,
        }
    }

    // The part is an expression of that type.
    fn part_typed(&self, types: &[u8], part: &[u8], wanted: Type, depth: usize) -> bool
        ensures { result ≡ is_typed (bytes.byte self.now.agreement.now 8) (tys_of types.now) (expr depth part.now) (ty_in wanted) }
    {
        self.type_of(types, part, depth) == Some(wanted)
    }

    // What `then` sees of a reading of the wanted type, where there is such a type and not too much to see.
    fn then_sight(&self, types: &[u8], wanted: usize) -> Option<TypesInSight>
        ensures seen { then_in self.now.agreement.now types.now wanted ≡ seen_as result }
        ensures some { IfSome result (λ seen. (1 ≤ length seen.items) × (0 < wanted)) }
    {
        join_sight(types, self.agreement.types_wanted(wanted)?)
    }

    // `where` is a truth under `inner`, `after` and `within` are numbers; the wanted reading type stands at i.
    fn wait_typed(&self, types: &[u8], inner: &[u8], s: &[u8], i: usize, depth: usize) -> bool
        requires { (i ≤ 5) × (i < length s.now) }
        ensures { result ≡ wait_typed (bytes.byte self.now.agreement.now 8) (tys_of inner.now) (tys_of types.now) (wait_at (expr depth) 0 s.now i) }
    {
        let a = record_end(s, i + 1);
        let b = record_end(s, a);
        let e = record_end(s, b);
        self.part_typed(inner, &s[i + 1..a], Type::Truth, depth)
            && self.part_typed(types, &s[a..b], Type::Number, depth)
            && self.part_typed(types, &s[b..e], Type::Number, depth)
    }

    // What `then` sees, where the wait is typed; the wanted reading type stands at i.
    fn wait_sight(&self, types: &[u8], s: &[u8], i: usize, depth: usize) -> Option<TypesInSight>
        requires { i ≤ 5 }
        ensures { wait_in self.now.agreement.now types.now depth s.now i ≡ seen_as result }
    {
        let seen = self.then_sight(types, byte(s, i))?;
        let inner = &seen[..seen.len() - 1];
        self.wait_typed(types, inner, s, i, depth).then_some(seen)
    }

    // Where the arguments from i on end, where each has the type that its byte in `values` says.
    fn arguments_end(
        &self,
        types: &[u8],
        s: &[u8],
        i: usize,
        values: &[u8],
        depth: usize,
    ) -> Option<usize>
        requires { i ≤ length s.now }
        ensures ends { result ≡ arguments_in (bytes.byte self.now.agreement.now 8) types.now values.now depth s.now i }
        ensures within { IfSome result (λ end. end ≤ length s.now) }
    {
        let mut end = i;
        for value in values {
            let e = record_end(s, end);
            if !self.part_typed(types, &s[end..e], values::type_of(*value), depth) {
                return None;
            }
            end = e;
        }
        Some(end)
    }

    // The party or party parameter of a blame byte, where the byte is allowed.
    fn blamed(&self, b: usize) -> Option<PartySet>
        ensures { result ≡ cond (may_blame (bytes.byte self.now.agreement.now 8) self.now.params b) (Some (mask_of (b ∷ []))) None }
    {
        PartySet::of_blame(b, self.agreement.parties(), self.params)
    }

    // The parties of blame bytes that are all allowed.
    fn blamed_parties(&self, blames: &[u8]) -> Option<PartySet>
        ensures { result ≡ typed_as (blames_of (bytes.byte self.now.agreement.now 8) self.now.params blames.now) }
    {
        let mut found = PartySet::empty();
        for blame in blames {
            found |= self.blamed(usize::from(*blame))?;
        }
        Some(found)
    }

    // Kind 22: the arguments are of the template's value types, and the blame bytes behind them are allowed.
    fn instance_parties(&self, types: &[u8], s: &[u8], depth: usize) -> Option<PartySet>
        ensures { result ≡ typed_as (typed_in self.now.agreement.now self.now.params types.now (instance_in self.now.agreement.now depth s.now)) }
    {
        let number = usize::from(*s.get(4)?);
        if number >= self.agreement.template_count() {
            return None;
        }
        let template = Template {
            agreement: self.agreement,
            number,
        };
        let i = self.arguments_end(types, s, 5, template.value_types(), depth)?;
        let blames = &s[i..];
        if blames.len() != template.param_count() {
            return None;
        }
        let declared = PartySet::of_bits(template.declared_bits());
        Some(declared | self.blamed_parties(blames)?)
    }
}
