//! Whole numbers of either sign as those of the types of a list.
ghost use Rattle.std.specs.Prelude.{◌≡◌, IfOk, All, map, pos};
ghost use Rattle.sl_lists.specs.Means.Numbers.{IsInt, IsPick};

use sl_base::Items;
use std::alloc::{AllocError, Global};

// Ints, as such.
pub fn ints(alloc: Global, wide: &[i64]) -> Result<Items<i32>, AllocError>
    requires { All IsInt wide.now }
    ensures { IfOk result (λ numbers. numbers ≡ wide.now) }
{
    let mut numbers = Items::new(alloc);
    for number in wide {
        numbers.push(int(*number))?;
    }
    Ok(numbers)
}

// Numbers below 2 to the 32, as such.
pub fn picks(alloc: Global, wide: &[i64]) -> Result<Items<u32>, AllocError>
    requires { All IsPick wide.now }
    ensures { IfOk result (λ numbers. map pos numbers ≡ wide.now) }
{
    let mut numbers = Items::new(alloc);
    for number in wide {
        numbers.push(pick(*number))?;
    }
    Ok(numbers)
}

fn int(number: i64) -> i32
    requires { IsInt number }
    ensures { result ≡ number }
{
    number as i32
}

fn pick(number: i64) -> u32
    requires { IsPick number }
    ensures { pos result ≡ number }
{
    number as u32
}
