//! Operators on single numbers, worked out apart from the intervals.
use crate::near::{greatest, least};
use sl_base::Scalar;

/// The operators of arithmetic.
#[derive(Clone, Copy)]
pub enum Operator {
    Add,
    Sub,
    Mul,
    Div,
    Rem,
}

/// 2 to the 64.
const SIZES: i128 = 18446744073709551616;

/// What an operator gives on two numbers of a type: none where it faults.
pub fn operated(operator: Operator, ty: Scalar, x: i128, y: i128) -> Option<i128> {
    match operator {
        Operator::Add => settled(ty, x.saturating_add(y)),
        Operator::Sub => settled(ty, x.saturating_sub(y)),
        Operator::Mul => settled(ty, x.wrapping_mul(y)),
        Operator::Div => quotient(ty, x, y),
        Operator::Rem => {
            quotient(ty, x, y)?;
            x.checked_rem(y)
        }
    }
}

/// The number of a type that differs from another by a multiple of how many numbers the type has; of `bool`, whether
/// it isn't 0.
pub fn converted(ty: Scalar, z: i128) -> i128 {
    match ty {
        Scalar::Int => centred(z.rem_euclid(4294967296), 4294967296),
        Scalar::Bool => i128::from(z != 0),
        Scalar::Size => z.rem_euclid(SIZES),
        Scalar::Diff => centred(z.rem_euclid(SIZES), SIZES),
    }
}

// Of two numbers that differ by a count, the one nearer to 0.
fn centred(rest: i128, count: i128) -> i128 {
    if rest < count / 2 {
        rest
    } else {
        rest.saturating_sub(count)
    }
}

// A result in its type.
fn settled(ty: Scalar, z: i128) -> Option<i128> {
    match ty {
        Scalar::Size => Some(z.rem_euclid(SIZES)),
        _ => fitting(ty, z),
    }
}

// A number, where the type has it.
fn fitting(ty: Scalar, z: i128) -> Option<i128> {
    if z < least(ty) {
        return None;
    }
    if z > greatest(ty) {
        return None;
    }
    Some(z)
}

// A quotient, where the type has it.
fn quotient(ty: Scalar, x: i128, y: i128) -> Option<i128> {
    fitting(ty, x.checked_div(y)?)
}
