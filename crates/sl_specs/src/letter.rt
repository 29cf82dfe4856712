ghost use Rattle.std.specs.Prelude.{◌≡◌};
ghost use Rattle.sl_specs.specs.Texts as spec;

/// What a call takes: one argument, or the two of a range. "An object" is the container that a member call stands on.
#[derive(Clone, Copy)]
pub enum Letter {
    /// `p`: an iterator of the object's form.
    Position,
    /// `i`: the same, to an element that is spliced.
    SplicedPosition,
    /// `f, l`: a range of iterators of the object's form.
    OwnRange,
    /// `f, l`: a range of ints.
    IntRange,
    /// `f2, l2`: a second one.
    SecondIntRange,
    /// `f, l`: a range of ints that are written.
    WrittenRange,
    /// `f, l`: the same, of random access iterators.
    RandomAccessRange,
    /// `f, l`: a range of any elements.
    AnyRange,
    /// `n`: a number, which becomes a `std::size_t`.
    Count,
    /// `x`: a number, which becomes an int.
    Element,
    /// `k`: the same, as a key.
    Key,
    /// `list`: the elements of a list in braces.
    InitializerList,
    /// `c`: a container of the object's form, which stays as it is.
    Container,
    /// `c`: a container of the object's form, which the call changes.
    ChangedContainer,
    /// `c`: a vector, deque or list, at whose end elements are put.
    AppendedContainer,
    /// `x` of an algorithm: an int.
    Int,
    /// `o`: an iterator that is written through, or an appender.
    Output,
    /// `it`: an iterator variable, which the call moves.
    IteratorVariable,
    /// `it`: an iterator.
    Iterator,
    /// `it`: an iterator that goes both ways.
    BidirectionalIterator,
    /// `n`: a number, which becomes a `std::ptrdiff_t`.
    Distance,
    /// `n`: the same, or no argument.
    OptionalDistance,
}

impl Letter {
    /// The letters that stand for it.
    pub fn text(self) -> &'static str
        ensures { result.now ≡ spec.letter_text self }
    {
        match self {
            Letter::Position => "p",
            Letter::SplicedPosition => "i",
            Letter::OwnRange
            | Letter::IntRange
            | Letter::WrittenRange
            | Letter::RandomAccessRange
            | Letter::AnyRange => "f, l",
            Letter::SecondIntRange => "f2, l2",
            Letter::Count | Letter::Distance | Letter::OptionalDistance => "n",
            Letter::Element | Letter::Int => "x",
            Letter::Key => "k",
            Letter::InitializerList => "list",
            Letter::Container | Letter::ChangedContainer | Letter::AppendedContainer => "c",
            Letter::Output => "o",
            Letter::IteratorVariable | Letter::Iterator | Letter::BidirectionalIterator => "it",
        }
    }
}
