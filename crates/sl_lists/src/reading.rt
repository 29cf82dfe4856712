//! The lists of the two kinds.
ghost use Rattle.std.specs.Prelude.{◌≡◌, ◌⊎◌, List, ℕ, ℤ, IfOk, IfErr, IsErrAnd};
ghost use Rattle.sl_model.specs.Reports.Lists.{ListOf, BadAt, int_of, pick_of};
ghost use Rattle.sl_lists.specs.declared.error.ListErr.TheVariants.{Memory, Bad};

use crate::error::ListErr;
use crate::kind::Kind;
use crate::narrowing::{ints, picks};
use crate::walk::numbers_of;
use sl_base::Items;
use std::alloc::Global;

/// The list of ints that the bytes of an input hold.
///
/// `ListErr::Memory` comes where memory runs out; `ListErr::Bad` exactly where the bytes hold no list, with the offset
/// at which they are bad.
pub fn read_input(alloc: Global, bytes: &[u8]) -> Result<Items<i32>, ListErr>
    // What is answered is so.
    ensures list { IfOk result (ListOf int_of bytes.now) }
    ensures fault { IfErr result (λ e. (offset : ℕ) → e ≡ Bad offset → BadAt int_of bytes.now offset) }
    // What is so is answered, unless memory runs out.
    ensures only_list { (numbers : List ℤ) → ListOf int_of bytes.now numbers →
        (result ≡ Ok numbers) ⊎ (result ≡ Err Memory) }
    ensures only_fault { (offset : ℕ) → BadAt int_of bytes.now offset →
        IsErrAnd result (λ e. (e ≡ Memory) ⊎ (e ≡ Bad offset)) }
{
    input_of(alloc, bytes)
}

/// The list of numbers below 2 to the 32 that the bytes of a schedule hold.
///
/// `ListErr::Memory` comes where memory runs out; `ListErr::Bad` exactly where the bytes hold no list, with the offset
/// at which they are bad.
pub fn read_schedule(alloc: Global, bytes: &[u8]) -> Result<Items<u32>, ListErr>
    // What is answered is so.
    ensures list { IfOk result (ListOf pick_of bytes.now) }
    ensures fault { IfErr result (λ e. (offset : ℕ) → e ≡ Bad offset → BadAt pick_of bytes.now offset) }
    // What is so is answered, unless memory runs out.
    ensures only_list { (numbers : List ℕ) → ListOf pick_of bytes.now numbers →
        (result ≡ Ok numbers) ⊎ (result ≡ Err Memory) }
    ensures only_fault { (offset : ℕ) → BadAt pick_of bytes.now offset →
        IsErrAnd result (λ e. (e ≡ Memory) ⊎ (e ≡ Bad offset)) }
{
    schedule_of(alloc, bytes)
}

// The list of an input.
fn input_of(alloc: Global, bytes: &[u8]) -> Result<Items<i32>, ListErr>
    ensures list { IfOk result (ListOf int_of bytes.now) }
    ensures fault { IfErr result (λ e. (offset : ℕ) → e ≡ Bad offset → BadAt int_of bytes.now offset) }
{
    let wide = numbers_of(alloc, Kind::Input, bytes)?;
    let numbers = ints(alloc, wide.as_slice())?;
    Ok(numbers)
}

// The list of a schedule.
fn schedule_of(alloc: Global, bytes: &[u8]) -> Result<Items<u32>, ListErr>
    ensures list { IfOk result (ListOf pick_of bytes.now) }
    ensures fault { IfErr result (λ e. (offset : ℕ) → e ≡ Bad offset → BadAt pick_of bytes.now offset) }
{
    let wide = numbers_of(alloc, Kind::Schedule, bytes)?;
    let numbers = picks(alloc, wide.as_slice())?;
    Ok(numbers)
}
