//! Elements that go over from one container to another take their iterators and references with them.
ghost use Rattle.std.specs.Prelude.{◌≡◌, ◌≢◌, ◌<◌, ◌≤◌, ◌+◌, ◌-◌, ℕ, slice_get, Some};
ghost use Rattle.sl_base.specs.declared.form.Form.{Form};
ghost use Rattle.sl_specs.specs.declared.class.Class.{Class};
ghost use Rattle.sl_model.specs.Memory.Containers.{Cont, Dropped};
ghost use Rattle.sl_model.specs.LibraryCalls.Situation.{Situation, own, own_size, index, container_of, their, their_size};
ghost use Rattle.sl_model.specs.LibraryCalls.Effects.{does};
ghost use Rattle.sl_model.specs.LibraryCalls.AccessActions.{swap};
ghost use Rattle.sl_model.specs.LibraryCalls.ListActions.{merge, splices};
ghost use Rattle.sl_model.specs.Runs.Good.{IsAt, RefersTo};

/// `swap` of two containers: what stood at an element of either stands at the same element of the other afterwards,
/// iterators and references, and the past-the-end iterators of both are dropped.
pub fn swap_exchanges()
    ensures goes { (form : Form) (class : Class) (s : Situation) → container_of s 1 ≢ s.object →
        slice_get s.memory.conts s.object ≡ Some (own s) →
        slice_get s.memory.conts (container_of s 1) ≡ Some (their s 1) → (k : ℕ) → k < own_size s →
        ((stamp : ℕ) → IsAt s.memory s.object k stamp →
        IsAt (does form class s (swap.effect s)).memory (container_of s 1) k stamp)
        × ((refer : ℕ) → RefersTo s.memory s.object k refer →
        RefersTo (does form class s (swap.effect s)).memory (container_of s 1) k refer) }
    ensures comes { (form : Form) (class : Class) (s : Situation) → container_of s 1 ≢ s.object →
        slice_get s.memory.conts s.object ≡ Some (own s) →
        slice_get s.memory.conts (container_of s 1) ≡ Some (their s 1) → (k : ℕ) → k < their_size s 1 →
        ((stamp : ℕ) → IsAt s.memory (container_of s 1) k stamp →
        IsAt (does form class s (swap.effect s)).memory s.object k stamp)
        × ((refer : ℕ) → RefersTo s.memory (container_of s 1) k refer →
        RefersTo (does form class s (swap.effect s)).memory s.object k refer) }
    ensures ends { (form : Form) (class : Class) (s : Situation) → container_of s 1 ≢ s.object →
        Dropped (does form class s (swap.effect s)).memory (own s).end s.site
        × Dropped (does form class s (swap.effect s)).memory (their s 1).end s.site }
{}

/// `splice` of `count` elements of another list, from its place `from` on, before the position: what stood at the
/// element at place k stands in the object afterwards, as far behind the position as k lies behind `from`.
pub fn splice_moves()
    ensures { (form : Form) (class : Class) (s : Situation) (from count : ℕ) → container_of s 2 ≢ s.object →
        slice_get s.memory.conts s.object ≡ Some (own s) →
        slice_get s.memory.conts (container_of s 2) ≡ Some (their s 2) → index s 1 ≤ own_size s →
        from + count ≤ their_size s 2 → (k : ℕ) → from ≤ k → k < from + count →
        ((stamp : ℕ) → IsAt s.memory (container_of s 2) k stamp →
        IsAt (does form class s (splices s from count)).memory s.object (index s 1 + (k - from)) stamp)
        × ((refer : ℕ) → RefersTo s.memory (container_of s 2) k refer →
        RefersTo (does form class s (splices s from count)).memory s.object (index s 1 + (k - from)) refer) }
{}

/// `merge` of another list: for each element of either there is a place of the object at which all that stood at the
/// element stands afterwards.
pub fn merge_moves()
    ensures stays { (form : Form) (class : Class) (s : Situation) → container_of s 1 ≢ s.object →
        slice_get s.memory.conts s.object ≡ Some (own s) →
        slice_get s.memory.conts (container_of s 1) ≡ Some (their s 1) → (k : ℕ) → k < own_size s →
        (h : ℕ) × ((stamp : ℕ) → IsAt s.memory s.object k stamp →
        IsAt (does form class s (merge.effect s)).memory s.object h stamp)
        × ((refer : ℕ) → RefersTo s.memory s.object k refer →
        RefersTo (does form class s (merge.effect s)).memory s.object h refer) }
    ensures comes { (form : Form) (class : Class) (s : Situation) → container_of s 1 ≢ s.object →
        slice_get s.memory.conts s.object ≡ Some (own s) →
        slice_get s.memory.conts (container_of s 1) ≡ Some (their s 1) → (k : ℕ) → k < their_size s 1 →
        (h : ℕ) × ((stamp : ℕ) → IsAt s.memory (container_of s 1) k stamp →
        IsAt (does form class s (merge.effect s)).memory s.object h stamp)
        × ((refer : ℕ) → RefersTo s.memory (container_of s 1) k refer →
        RefersTo (does form class s (merge.effect s)).memory s.object h refer) }
{}
