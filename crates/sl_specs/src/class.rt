ghost use Rattle.std.specs.Prelude.{◌≡◌};
ghost use Rattle.sl_specs.specs.Texts as spec;

/// Which iterators and references a call invalidates, by the rules of its form: ISO/IEC 14882:2017,
/// [vector.capacity], [vector.modifiers], [deque.modifiers], [list.modifiers], [associative.reqmts], [unord.req] and
/// [container.requirements.general].
#[derive(Clone, Copy)]
pub enum Class {
    /// `-`: none.
    Nothing,
    /// `V1`: elements come into a vector.
    VectorInsert,
    /// `V2`: elements go from a vector.
    VectorErase,
    /// `V3`: a vector's room grows.
    VectorReserve,
    /// `VR`: elements come or go at the end of a vector.
    VectorResize,
    /// `DR`: elements come or go at the end of a deque.
    DequeResize,
    /// `D1`: elements come into a deque.
    DequeInsert,
    /// `D2`: elements go from a deque.
    DequeErase,
    /// `E1`: those to the elements that go.
    ErasedOnly,
    /// `H1`: a key comes into a hash form.
    HashInsert,
    /// `HR`: a hash form is rehashed.
    HashReserve,
    /// `AE`: all, and the end.
    AllAndEnd,
    /// `SW`: the ends of two containers, whose elements change places.
    Swap,
}

impl Class {
    /// The letters that stand for it.
    pub fn text(self) -> &'static str
        ensures { result.now ≡ spec.class_text self }
    {
        match self {
            Class::Nothing => "-",
            Class::VectorInsert => "V1",
            Class::VectorErase => "V2",
            Class::VectorReserve => "V3",
            Class::VectorResize => "VR",
            Class::DequeResize => "DR",
            Class::DequeInsert => "D1",
            Class::DequeErase => "D2",
            Class::ErasedOnly => "E1",
            Class::HashInsert => "H1",
            Class::HashReserve => "HR",
            Class::AllAndEnd => "AE",
            Class::Swap => "SW",
        }
    }
}
