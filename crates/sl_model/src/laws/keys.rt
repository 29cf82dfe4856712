//! Keys stay in order.
ghost use Rattle.std.specs.Prelude.{◌≡◌, IsTrue, ℕ, ℤ, List, false, true};
ghost use Rattle.sl_specs.specs.Forms.{is_hash, is_keyed};
ghost use Rattle.sl_syntax.specs.declared.typed.callee.Callee.{Callee};
ghost use Rattle.sl_model.specs.Memory.Containers.{Cont, Memory, Part, empty_memory, end_from, keys, write_element};
ghost use Rattle.sl_model.specs.Memory.Orders.{is_ascending};
ghost use Rattle.sl_model.specs.LibraryCalls.Values.{Args, Value, gives};
ghost use Rattle.sl_model.specs.LibraryCalls.Library.{lib};
ghost use Rattle.sl_model.specs.Runs.Good.{IsSound};
ghost use Rattle.sl_model.specs.Memory.Orderly.{IsOrderly, IsOrderlyCont};

/// The keys of each set and map stand in strictly ascending order, those of each multiset and multimap in ascending
/// order, those of each hash form once, and each element holds ints. That is so in the memory without containers, each
/// call of the library keeps it, and so do a number that is written in an element and the end of containers.
pub fn keys_stay_in_order()
    ensures called { (callee : Callee) (a : Args) (m later : Memory) (picks left : List ℕ) (v : Value) →
        lib callee a m picks ≡ gives v later left → IsSound m → IsOrderly m → IsOrderly later }
    ensures written { (m : Memory) (j k : ℕ) (part : Part) (z : ℤ) → IsOrderly m →
        IsOrderly (write_element m j k part z) }
    ensures ended { (site n : ℕ) (m : Memory) → IsOrderly m → IsOrderly (end_from site n m) }
    ensures empty { IsOrderly empty_memory }
{}

/// The keys of an orderly container of an ordered form ascend, as searches and merges ask of a range.
pub fn ordered_keys_ascend()
    ensures { (c : Cont) → IsOrderlyCont c → is_keyed c.form ≡ true → is_hash c.form ≡ false →
        IsTrue (is_ascending (keys c)) }
{}
