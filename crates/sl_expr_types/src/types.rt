//! The types of a call's arguments.
ghost use Rattle.std.specs.Prelude.{◌≡◌, ◌++◌, [], ◌∷◌, length};
ghost use Rattle.sl_expr_types.specs.Few.{few, pushed_to, listed};

use sl_typing::ExprType;
use std::marker::Model;

/// The most arguments that a call of the library has.
pub const ARGUMENTS: usize = 8;

const TOO_MANY: usize = ARGUMENTS + 1;

static MANY: [ExprType; TOO_MANY] = [ExprType::Wrong; TOO_MANY];

/// The types of a call's arguments in their order, at most eight. A contract sees the list.
#[derive(Drop)]
pub struct Types {
    types: [ExprType; ARGUMENTS],
    count: usize,
}

impl Model for Types {
    ghost use Rattle.std.specs.Prelude.{◌≡◌, ◌≤◌, List, length, take};
    ghost use Rattle.sl_typing.specs.declared.expr_type.ExprType.{ExprType};
    ghost use Rattle.sl_expr_types.specs.declared.types.TheConstants.{ARGUMENTS};

    ghost Value = { List ExprType };

    ghost view = { λ t. take t.count t.types };

    ghost invariant = { λ t. (t.count ≤ ARGUMENTS) × (length t.types ≡ ARGUMENTS) };
}

impl Types {
    /// The types in order.
    pub fn as_slice(&self) -> &[ExprType]
        ensures { result.now ≡ self.now }
    {
        &self.types[..self.count]
    }

    // These and one more, where there is room.
    fn with(mut self, last: ExprType) -> Option<Types>
        ensures { result ≡ few (self ++ last ∷ []) }
    {
        if self.count == ARGUMENTS {
            return None;
        }
        self.types[self.count] = last;
        self.count += 1;
        Some(self)
    }
}

/// No types. It takes no memory.
#[tactic(auto, unfolding(crate::specs::Few::few, crate::specs::Few::pushed_to))]
pub fn empty() -> Option<Types>
    ensures { result ≡ few [] }
{
    Some(Types {
        types: [ExprType::Wrong; ARGUMENTS],
        count: 0,
    })
}

/// These types and one more behind them, where a call of the library may have so many. It takes no memory.
#[tactic(auto, unfolding(crate::specs::Few::few, crate::specs::Few::pushed_to))]
pub fn pushed(types: Option<Types>, last: ExprType) -> Option<Types>
    ensures { result ≡ pushed_to types last }
{
    match types {
        None => None,
        Some(types) => types.with(last),
    }
}

/// These types; where there were too many, as many as no call of the library has. It takes no memory.
#[tactic(auto, unfolding(crate::specs::Few::listed))]
pub fn slice_of(types: &Option<Types>) -> &[ExprType]
    ensures { result.now ≡ listed types.now }
{
    match types {
        None => &MANY,
        Some(types) => types.as_slice(),
    }
}
