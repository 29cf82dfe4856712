//! Laws of the table.
ghost use Rattle.std.specs.Prelude.{◌≡◌, ℕ, length, Option};
ghost use Rattle.sl_specs.specs.Table.{table, row_numbered, row_called};
ghost use Rattle.sl_specs.specs.RowNumbers.{named_rows, places};
ghost use Rattle.sl_specs.specs.declared.lib_row.LibRow.{LibRow};

/// There are 231 rows. Each has its place as its number, and is found by its form, its call and its shape: no two have
/// all three in common.
pub fn rows_differ()
    ensures count { length table ≡ 231 }
    ensures numbered { (n : ℕ) (r : LibRow) → row_numbered n ≡ Some r → r.number ≡ n }
    ensures found { (n : ℕ) (r : LibRow) → row_numbered n ≡ Some r → row_called r.form r.call r.shape ≡ Some r }
    ensures apart { (m n : ℕ) (r s : LibRow) → row_numbered m ≡ Some r → row_numbered n ≡ Some s →
        r.form ≡ s.form → r.call ≡ s.call → r.shape ≡ s.shape → m ≡ n }
{}

/// The numbers in `rows` are the places of the rows that they are named for.
pub fn numbers_are_places()
    ensures { named_rows ≡ places 0 table }
{}
