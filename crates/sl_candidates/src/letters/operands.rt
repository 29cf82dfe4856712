//! The operands of a call, by their types.
ghost use Rattle.std.specs.Prelude.{◌≡◌, [], ◌∷◌, take, drop};
ghost use Rattle.sl_typing.specs.Signatures as spec;
ghost use Rattle.sl_candidates.specs.Means.Operands as means;

use sl_typing::ExprType;

/// The type of the first operand; where there is none it is wrong. It takes no memory.
pub fn first_type(types: &[ExprType]) -> ExprType
    ensures { result ≡ spec.first_type types.now }
{
    match types {
        [first, ..] => *first,
        [] => ExprType::Wrong,
    }
}

/// The type of the last operand; where there is none it is wrong. It takes no memory.
pub fn last_type(types: &[ExprType]) -> ExprType
    ensures { result ≡ spec.last_type types.now }
{
    match types.last() {
        Some(last) => *last,
        None => ExprType::Wrong,
    }
}

// The type of the one operand; where there is none, or another one, it is wrong.
pub fn single_type(types: &[ExprType]) -> ExprType
    ensures { result ≡ means.single_type types.now }
{
    match types {
        [own] => *own,
        _ => ExprType::Wrong,
    }
}

// The type of both ends of a range; where they aren't there it is wrong.
pub fn range_type(types: &[ExprType]) -> ExprType
    ensures { result ≡ means.range_type types.now }
{
    match types {
        [first, last] => end_type(*first, *last),
        _ => ExprType::Wrong,
    }
}

fn end_type(first: ExprType, last: ExprType) -> ExprType
    ensures { result ≡ means.range_type (first ∷ last ∷ []) }
{
    if first.same_iterators(last) {
        first
    } else {
        ExprType::Wrong
    }
}

// So many operands, or all that there are.
pub fn front(types: &[ExprType], count: usize) -> &[ExprType]
    ensures { result.now ≡ take count types.now }
{
    if count < types.len() {
        &types[..count]
    } else {
        types
    }
}

// The operands behind so many.
pub fn behind(types: &[ExprType], count: usize) -> &[ExprType]
    ensures { result.now ≡ drop count types.now }
{
    if count < types.len() {
        &types[count..]
    } else {
        &[]
    }
}
