//! Variables as operands, and the numbers and left sides in typed expressions.
ghost use Rattle.std.specs.Prelude.{◌≡◌, pos};
ghost use Rattle.sl_syntax.specs.Typed as t;
ghost use Rattle.sl_syntax.specs.TypedView as view;
ghost use Rattle.sl_typing.specs.Numbering as spec;

use sl_base::{Place, Scalar};
use sl_syntax::typed::{ElementPart, Expr, Left};
use sl_typing::ExprType;

/// A number of a type. It takes no memory.
pub fn literal(scalar: Scalar, value: u32) -> Expr
    ensures { view.expr_of result ≡ t.literal scalar (pos value) }
{
    Expr::Literal { scalar, value }
}

/// `true` or `false`, as 1 or 0. It takes no memory.
pub fn truth(value: bool) -> Expr
    ensures { view.expr_of result ≡ t.literal Scalar.Bool (spec.truth_number value) }
{
    if value {
        literal(Scalar::Bool, 1)
    } else {
        literal(Scalar::Bool, 0)
    }
}

/// A variable of a type, by its number among those of its sort, at its name, with the name's number. It takes no memory.
pub fn variable(variable_type: ExprType, number: u8, place: Place, name: u16) -> Expr
    ensures { view.expr_of result ≡ spec.variable variable_type number place name }
{
    match variable_type {
        ExprType::Iterator(_, _) => Expr::Iterator(number),
        ExprType::Container(_, _) => Expr::Container(number),
        ExprType::IntReference(_) | ExprType::EntryReference(_) => whole(number, place, name),
        _ => Expr::Held(Left::Scalar {
            scalar: number,
            place,
        }),
    }
}

// A use of a reference, all of what it refers to.
fn whole(reference: u8, place: Place, name: u16) -> Expr
    ensures { view.expr_of result ≡ view.expr_of (Expr.Held (Left.Reference reference place name ElementPart.Whole)) }
{
    Expr::Held(Left::Reference {
        reference,
        place,
        name,
        part: ElementPart::Whole,
    })
}

/// The left side that a value is read from; that of what is read from none is scalar number 0, at no place. It takes
/// no memory.
pub fn left_of(value: Expr) -> Left
    ensures { view.left_of result ≡ spec.left_of (view.expr_of value) }
{
    match value {
        Expr::Held(left) => left,
        _ => no_left(),
    }
}

// What stands for the left side of what has none.
fn no_left() -> Left
    ensures { view.left_of result ≡ spec.no_left }
{
    Left::Scalar {
        scalar: 0,
        place: Place { line: 0, col: 0 },
    }
}

/// The number of a variable among those of its sort; that of what is no variable is 0. It takes no memory.
pub fn number_in(value: &Expr) -> u8
    ensures { result ≡ spec.number_in (view.expr_of value.now) }
{
    match value {
        Expr::Held(Left::Scalar { scalar, .. }) => *scalar,
        Expr::Iterator(number) => *number,
        Expr::Container(number) => *number,
        _ => 0,
    }
}

/// What stands for an expression where there is none. It takes no memory.
pub fn no_expr() -> Expr
    ensures { view.expr_of result ≡ spec.no_expr }
{
    Expr::Held(no_left())
}
