//! Conversions of numbers.
ghost use Rattle.std.specs.Prelude.{◌≡◌};
ghost use Rattle.sl_base.specs.declared.scalar.Scalar.TheVariants.{Int};
ghost use Rattle.sl_model.specs.Numbers.{converted};

/// A number converted to `int`.
pub fn to_int(number: i128) -> i32
    ensures { result ≡ converted Int number }
{
    let rest = number.rem_euclid(4_294_967_296);
    if rest < 2_147_483_648 {
        rest as i32
    } else {
        (rest - 4_294_967_296) as i32
    }
}
