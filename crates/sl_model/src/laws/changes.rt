//! Where iterators and references stand after changes of containers.
ghost use Rattle.std.specs.Prelude.{◌≡◌, ◌≢◌, ◌<◌, IsTrue, ℕ, false, length, slice_get, Some};
ghost use Rattle.sl_model.specs.Memory.Containers.{Cont, Memory, Dropped, Lost, size};
ghost use Rattle.sl_model.specs.Memory.Edits.{Change, after, after_two};
ghost use Rattle.sl_model.specs.Memory.Origins.{ComesFrom, ComesOver, TakesNoneOver};
ghost use Rattle.sl_model.specs.Runs.Good.{IsAt, IsSound, RefersTo};

/// After a change of a container, the iterators and references at an element stand where the element went, unless the
/// change invalidates them; and the iterators at the end stand at the end. In a sound memory what is invalidated stands
/// nowhere afterwards, and it is dropped with the site of the change.
pub fn elements_keep_their_marks()
    ensures iterators { (ch : Change) (m : Memory) (j : ℕ) (c : Cont) (site : ℕ) → slice_get m.conts j ≡ Some c →
        (h k s : ℕ) → ComesFrom ch h k → k < size c → ch.kill k ≡ false → IsAt m j k s →
        IsAt (after ch m j c site) j h s }
    ensures references { (ch : Change) (m : Memory) (j : ℕ) (c : Cont) (site : ℕ) → slice_get m.conts j ≡ Some c →
        (h k r : ℕ) → ComesFrom ch h k → ch.lose k ≡ false → RefersTo m j k r →
        RefersTo (after ch m j c site) j h r }
    ensures end { (ch : Change) (m : Memory) (j : ℕ) (c : Cont) (site : ℕ) → slice_get m.conts j ≡ Some c →
        (s : ℕ) → ch.kill (size c) ≡ false → IsAt m j (size c) s →
        IsAt (after ch m j c site) j (length ch.sources) s }
    ensures invalidated { (ch : Change) (m : Memory) (j : ℕ) (c : Cont) (site : ℕ) → IsSound m →
        slice_get m.conts j ≡ Some c → TakesNoneOver ch → (k s : ℕ) → IsTrue (ch.kill k) → IsAt m j k s →
        Dropped (after ch m j c site) s site × ((i h : ℕ) → IsAt (after ch m j c site) i h s → ⊥) }
    ensures lost { (ch : Change) (m : Memory) (j : ℕ) (c : Cont) (site : ℕ) → IsSound m →
        slice_get m.conts j ≡ Some c → TakesNoneOver ch → (k r : ℕ) → IsTrue (ch.lose k) → RefersTo m j k r →
        Lost (after ch m j c site) r site × ((i h : ℕ) → RefersTo (after ch m j c site) i h r → ⊥) }
{}

/// After changes of two containers, the iterators and references at an element that goes over stand where it went, in
/// the container that took it; and those at one that stays, where it went in its own.
pub fn elements_go_over()
    ensures to_first { (ch dh : Change) (m : Memory) (j i : ℕ) (c d : Cont) (site : ℕ) → j ≢ i →
        slice_get m.conts j ≡ Some c → slice_get m.conts i ≡ Some d → (h k : ℕ) → ComesOver ch h k → k < size d →
        ((s : ℕ) → IsAt m i k s → IsAt (after_two ch dh m j c i d site) j h s)
        × ((r : ℕ) → RefersTo m i k r → RefersTo (after_two ch dh m j c i d site) j h r) }
    ensures to_second { (ch dh : Change) (m : Memory) (j i : ℕ) (c d : Cont) (site : ℕ) → j ≢ i →
        slice_get m.conts j ≡ Some c → slice_get m.conts i ≡ Some d → (h k : ℕ) → ComesOver dh h k → k < size c →
        ((s : ℕ) → IsAt m j k s → IsAt (after_two ch dh m j c i d site) i h s)
        × ((r : ℕ) → RefersTo m j k r → RefersTo (after_two ch dh m j c i d site) i h r) }
    ensures in_first { (ch dh : Change) (m : Memory) (j i : ℕ) (c d : Cont) (site : ℕ) → j ≢ i →
        slice_get m.conts j ≡ Some c → slice_get m.conts i ≡ Some d → (h k : ℕ) → ComesFrom ch h k → k < size c →
        ((s : ℕ) → ch.kill k ≡ false → IsAt m j k s → IsAt (after_two ch dh m j c i d site) j h s)
        × ((r : ℕ) → ch.lose k ≡ false → RefersTo m j k r → RefersTo (after_two ch dh m j c i d site) j h r) }
    ensures in_second { (ch dh : Change) (m : Memory) (j i : ℕ) (c d : Cont) (site : ℕ) → j ≢ i →
        slice_get m.conts j ≡ Some c → slice_get m.conts i ≡ Some d → (h k : ℕ) → ComesFrom dh h k → k < size d →
        ((s : ℕ) → dh.kill k ≡ false → IsAt m i k s → IsAt (after_two ch dh m j c i d site) i h s)
        × ((r : ℕ) → dh.lose k ≡ false → RefersTo m i k r → RefersTo (after_two ch dh m j c i d site) i h r) }
{}
