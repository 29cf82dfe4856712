//! What an edit of a class invalidates.
ghost use Rattle.std.specs.Prelude.{◌≡◌, ◌≢◌, ◌⊎◌, ◌<◌, ◌≤◌, ◌+◌, ◌↔◌, IsTrue, ℕ, length};
ghost use Rattle.sl_specs.specs.declared.class.Class.{Class};
ghost use Rattle.sl_specs.specs.declared.class.Class.TheVariants.{AllAndEnd, DequeErase, DequeInsert};
ghost use Rattle.sl_specs.specs.declared.class.Class.TheVariants.{ErasedOnly, HashInsert, HashReserve};
ghost use Rattle.sl_specs.specs.declared.class.Class.TheVariants.{VectorErase, VectorInsert, VectorReserve};
ghost use Rattle.sl_model.specs.Memory.Classes.{Edit, Fits, kills, loses};

/// Where a class invalidates the references to an element, it invalidates the iterators at it too.
pub fn iterators_go_with_references()
    ensures { (class : Class) (n room k : ℕ) (e : Edit) → k < n → IsTrue (loses class n room e k) →
        IsTrue (kills class n room e k) }
{}

/// An erasure from a list or an ordered form invalidates the iterators and references at the erased elements alone, and
/// never the end. One from a vector invalidates those from the first erased element on, with the end.
pub fn erasures_invalidate()
    ensures erased_only { (n room k : ℕ) (e : Edit) →
        (IsTrue (kills ErasedOnly n room e k) ↔ ((e.from ≤ k) × (k < e.from + e.gone)))
        × (IsTrue (loses ErasedOnly n room e k) ↔ ((e.from ≤ k) × (k < e.from + e.gone))) }
    ensures not_the_end { (n room : ℕ) (e : Edit) → Fits e n → IsTrue (kills ErasedOnly n room e n) → ⊥ }
    ensures vector { (n room k : ℕ) (e : Edit) → 0 < e.gone →
        (IsTrue (kills VectorErase n room e k) ↔ (e.from ≤ k))
        × (IsTrue (loses VectorErase n room e k) ↔ (e.from ≤ k)) }
{}

/// An insertion into a vector invalidates the iterators and references from its place on, with the end, where there is
/// room for it, and else all. A `reserve` of a vector invalidates all where it makes the room greater, and else none.
pub fn vectors_invalidate()
    ensures with_room { (n room k : ℕ) (e : Edit) → 0 < length e.come → n + length e.come ≤ room →
        (IsTrue (kills VectorInsert n room e k) ↔ (e.from ≤ k))
        × (IsTrue (loses VectorInsert n room e k) ↔ (e.from ≤ k)) }
    ensures grown { (n room k : ℕ) (e : Edit) → 0 < length e.come → room < n + length e.come →
        IsTrue (kills VectorInsert n room e k) × IsTrue (loses VectorInsert n room e k) }
    ensures reserved { (n room k : ℕ) (e : Edit) → (IsTrue (kills VectorReserve n room e k) ↔ (room < e.room))
        × (IsTrue (loses VectorReserve n room e k) ↔ (room < e.room)) }
{}

/// An insertion or erasure of no elements invalidates nothing.
pub fn nothing_is_invalidated()
    ensures inserted { (n room k : ℕ) (e : Edit) → length e.come ≡ 0 → (IsTrue (kills VectorInsert n room e k) → ⊥)
        × (IsTrue (kills DequeInsert n room e k) → ⊥) × (IsTrue (loses DequeInsert n room e k) → ⊥)
        × (IsTrue (kills HashInsert n room e k) → ⊥) }
    ensures erased { (n room k : ℕ) (e : Edit) → e.gone ≡ 0 → (IsTrue (kills VectorErase n room e k) → ⊥)
        × (IsTrue (kills DequeErase n room e k) → ⊥) × (IsTrue (loses DequeErase n room e k) → ⊥)
        × (IsTrue (kills ErasedOnly n room e k) → ⊥) }
{}

/// An insertion into a deque invalidates every iterator; at an end of the deque it invalidates no reference, and inside
/// it every one. An erasure at an end of a deque invalidates the references to the erased elements alone; the iterators
/// are those too, and the end where the last elements go; and one inside invalidates all.
pub fn deques_invalidate()
    ensures inserted { (n room k : ℕ) (e : Edit) → 0 < length e.come → IsTrue (kills DequeInsert n room e k) }
    ensures at_an_end { (n room k : ℕ) (e : Edit) → (e.from ≡ 0) ⊎ (e.from ≡ n) →
        IsTrue (loses DequeInsert n room e k) → ⊥ }
    ensures inside { (n room k : ℕ) (e : Edit) → 0 < length e.come → e.from ≢ 0 → e.from ≢ n →
        IsTrue (loses DequeInsert n room e k) }
    ensures erased_at_an_end { (n room k : ℕ) (e : Edit) → (e.from ≡ 0) ⊎ (e.from + e.gone ≡ n) →
        (IsTrue (loses DequeErase n room e k) ↔ ((e.from ≤ k) × (k < e.from + e.gone))) }
    ensures iterators_at_an_end { (n room k : ℕ) (e : Edit) → 0 < e.gone → (e.from ≡ 0) ⊎ (e.from + e.gone ≡ n) →
        k < n → (IsTrue (kills DequeErase n room e k) ↔ ((e.from ≤ k) × (k < e.from + e.gone))) }
    ensures end { (n room : ℕ) (e : Edit) → 0 < e.gone → e.from + e.gone ≡ n → IsTrue (kills DequeErase n room e n) }
    ensures erased_inside { (n room k : ℕ) (e : Edit) → 0 < e.gone → e.from ≢ 0 → e.from + e.gone ≢ n →
        IsTrue (kills DequeErase n room e k) × IsTrue (loses DequeErase n room e k) }
{}

/// An insertion into a hash form invalidates no reference, and every iterator where the room is passed, and else none.
/// A `reserve` of one invalidates every iterator and no reference.
pub fn hash_forms_invalidate()
    ensures references { (n room k : ℕ) (e : Edit) → (IsTrue (loses HashInsert n room e k) → ⊥)
        × (IsTrue (loses HashReserve n room e k) → ⊥) }
    ensures iterators { (n room k : ℕ) (e : Edit) → 0 < length e.come →
        (IsTrue (kills HashInsert n room e k) ↔ (room < n + length e.come)) }
    ensures reserved { (n room k : ℕ) (e : Edit) → IsTrue (kills HashReserve n room e k) }
{}

/// What replaces or clears all elements invalidates every iterator, with the end, and every reference.
pub fn all_and_end_invalidates()
    ensures { (n room k : ℕ) (e : Edit) →
        IsTrue (kills AllAndEnd n room e k) × IsTrue (loses AllAndEnd n room e k) }
{}
