ghost use Rattle.std.specs.Prelude.{◌≡◌};
ghost use Rattle.sl_specs.specs.Texts as spec;

/// What a call needs of its operands, ISO/IEC 14882:2017, [structure.specifications]. "An object" is the container that
/// a member call stands on.
#[derive(Clone, Copy, Default)]
pub enum Need {
    /// `P`: the position is an iterator into the object.
    #[default]
    PositionInObject,
    /// `Q`: the position is an iterator to an element of the object.
    ErasablePosition,
    /// `R`: the range is one of the object.
    RangeInObject,
    /// `R1`: the two iterators are a range of one container.
    OneRange,
    /// `O`: the range is one of another container.
    ForeignRange,
    /// `N`: the object has an element.
    NotEmpty,
    /// `I`: the index is less than the object's size.
    IndexInSize,
    /// `M`: the container given isn't the object.
    OtherContainer,
    /// `J`: the iterator is one to an element of the container given.
    SplicedElement,
    /// `T`: the range is one of the container given, and the position isn't in it.
    SplicedRange,
    /// `S`: the object and the container given are sorted.
    BothSorted,
    /// `PB`: the elements that are less than the value come first.
    PartitionedBelow,
    /// `PU`: the elements that the value isn't less than come first.
    PartitionedAbove,
    /// `SO`: each input range is sorted.
    RangesSorted,
    /// `OU`: what is written has room behind the output, and stands apart from the input.
    OutputFits,
    /// `MV`: there is a place so far from the iterator.
    Movable,
}

impl Need {
    /// The letters that stand for it.
    pub fn text(self) -> &'static str
        ensures { result.now ≡ spec.need_text self }
    {
        match self {
            Need::PositionInObject => "P",
            Need::ErasablePosition => "Q",
            Need::RangeInObject => "R",
            Need::OneRange => "R1",
            Need::ForeignRange => "O",
            Need::NotEmpty => "N",
            Need::IndexInSize => "I",
            Need::OtherContainer => "M",
            Need::SplicedElement => "J",
            Need::SplicedRange => "T",
            Need::BothSorted => "S",
            Need::PartitionedBelow => "PB",
            Need::PartitionedAbove => "PU",
            Need::RangesSorted => "SO",
            Need::OutputFits => "OU",
            Need::Movable => "MV",
        }
    }
}
