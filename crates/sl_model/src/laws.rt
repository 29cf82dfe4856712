//! Laws of the definitions that a reviewer would ask for.
ghost use Rattle.std.specs.Prelude.{◌≡◌, ◌≢◌, ◌+◌, ◌<◌, ◌≤◌, ◌↔◌, IsTrue, ℕ, ℤ, List, [], ◌∷◌, length, slice_get, false, Some};
ghost use Rattle.sl_syntax.specs.declared.typed.callee.Callee.{Callee};
ghost use Rattle.sl_syntax.specs.Typed.{Typed};
ghost use Rattle.sl_model.specs.Memory.Containers.{Cont, Memory, Dropped, Lost, size, stamps, refers};
ghost use Rattle.sl_specs.specs.declared.class.Class.TheVariants.{VectorInsert};
ghost use Rattle.sl_specs.specs.declared.rows.sequences.TheConstants.{VECTOR_PUSH_BACK};
ghost use Rattle.sl_model.specs.Memory.Classes.{Edit, kills, loses};
ghost use Rattle.sl_model.specs.Memory.Edits.{Change, after};
ghost use Rattle.sl_model.specs.LibraryCalls.Situation.{Situation, own_size};
ghost use Rattle.sl_model.specs.LibraryCalls.Actions.{edits};
ghost use Rattle.sl_model.specs.LibraryCalls.SequenceActions.{push_back};
ghost use Rattle.sl_model.specs.LibraryCalls.Rows.{Row, row_numbered};
ghost use Rattle.sl_model.specs.LibraryCalls.Values.{Args, Value, gives};
ghost use Rattle.sl_model.specs.LibraryCalls.Library.{lib};
ghost use Rattle.sl_model.specs.Runs.Good.{IsAt, IsGood, IsSound, NoneVanishes, RefersTo};
ghost use Rattle.sl_model.specs.Memory.Orderly.{IsOrderly};
ghost use Rattle.sl_model.specs.Typing.Scoped.{IsScoped};
ghost use Rattle.sl_model.specs.Typing.Shapes.{lib_makes, lib_shape};
ghost use Rattle.sl_model.specs.Runs.Ends.{OutOfSteps};
ghost use Rattle.sl_model.specs.Runs.Run.{end_state, main_out, run};

mod changes;
mod classes;
mod exchanges;
mod keys;
mod typed;

pub use changes::{elements_go_over, elements_keep_their_marks};
pub use classes::{
    all_and_end_invalidates, deques_invalidate, erasures_invalidate, hash_forms_invalidate,
    iterators_go_with_references, nothing_is_invalidated, vectors_invalidate,
};
pub use exchanges::{merge_moves, splice_moves, swap_exchanges};
pub use keys::{keys_stay_in_order, ordered_keys_ascend};
pub use typed::{well_typed_texts_are_scoped, well_typed_texts_have_meaning};

/// One element comes in at the end of a vector of n elements, as `push_back` does it. Where there is room for it, the
/// iterators at the end are invalidated and at no other place; where there is none, those at every place are. A
/// reference is invalidated where the iterators at its element are.
pub fn push_back_kills()
    ensures row { (r : Row) → row_numbered false VECTOR_PUSH_BACK ≡ Some r →
        (r.class ≡ VectorInsert) × (r.action ≡ push_back) }
    ensures edit { (s : Situation) (picks : ℕ) (e : Edit) → push_back.effect s ≡ edits picks e →
        (e.from ≡ own_size s) × (e.gone ≡ 0) × (length e.come ≡ 1) }
    ensures with_room { (n room new_room k : ℕ) (x : ℤ × ℤ) → n + 1 ≤ room → k ≤ n →
        (IsTrue (kills VectorInsert n room (record { from = n; gone = 0; come = x ∷ []; room = new_room }) k)
        ↔ (k ≡ n)) }
    ensures grown { (n room new_room k : ℕ) (x : ℤ × ℤ) → room < n + 1 → k ≤ n →
        IsTrue (kills VectorInsert n room (record { from = n; gone = 0; come = x ∷ []; room = new_room }) k) }
    ensures references { (n room k : ℕ) (e : Edit) → loses VectorInsert n room e k ≡ kills VectorInsert n room e k }
{}

/// In a sound memory a stamp stands at one place at most, and one that was dropped stands nowhere; and so does a refer.
pub fn one_place()
    ensures once { (m : Memory) → IsSound m → (j k i h s : ℕ) → IsAt m j k s → IsAt m i h s → (j ≡ i) × (k ≡ h) }
    ensures nowhere { (m : Memory) → IsSound m → (s site : ℕ) → Dropped m s site → (j k : ℕ) → IsAt m j k s → ⊥ }
    ensures refers_once { (m : Memory) → IsSound m → (j k i h r : ℕ) → RefersTo m j k r → RefersTo m i h r →
        (j ≡ i) × (k ≡ h) }
    ensures refers_nowhere { (m : Memory) → IsSound m → (r site : ℕ) → Lost m r site → (j k : ℕ) →
        RefersTo m j k r → ⊥ }
{}

/// What a change invalidates is dropped with the site of the change.
pub fn dropped_has_its_site()
    ensures stamps { (ch : Change) (m : Memory) (j k s site : ℕ) (c : Cont) → slice_get m.conts j ≡ Some c →
        slice_get (stamps c) k ≡ Some s → IsTrue (ch.kill k) → Dropped (after ch m j c site) s site }
    ensures refers { (ch : Change) (m : Memory) (j k r site : ℕ) (c : Cont) → slice_get m.conts j ≡ Some c →
        slice_get (refers c) k ≡ Some r → IsTrue (ch.lose k) → Lost (after ch m j c site) r site }
{}

/// What stood before a call of the library stands after it, or it was dropped at the call's site.
pub fn none_vanishes()
    ensures { (callee : Callee) (a : Args) (m later : Memory) (picks left : List ℕ) (v : Value) → IsSound m →
        lib callee a m picks ≡ gives v later left → NoneVanishes m a.site later }
{}

/// A run that ends otherwise than by the end of its steps ends the same, and writes the same, with any number of steps
/// more.
pub fn longer_runs()
    ensures { (p : Typed) (input : List ℤ) (picks : List ℕ) (n more : ℕ) →
        (run p input picks n).end ≢ OutOfSteps → run p input picks (n + more) ≡ run p input picks n }
{}

/// Memory is sound and orderly at the end of each run. In a text in which each variable that is used is in scope, the
/// whole state is good there.
pub fn runs_stay_good()
    ensures sound { (p : Typed) (input : List ℤ) (picks : List ℕ) (steps : ℕ) →
        IsSound (end_state (main_out p input picks steps)).memory }
    ensures orderly { (p : Typed) (input : List ℤ) (picks : List ℕ) (steps : ℕ) →
        IsOrderly (end_state (main_out p input picks steps)).memory }
    ensures good { (p : Typed) (input : List ℤ) (picks : List ℕ) (steps : ℕ) → IsScoped lib_shape lib_makes p →
        IsGood (end_state (main_out p input picks steps)) }
{}
