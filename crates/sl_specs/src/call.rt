ghost use Rattle.std.specs.Prelude.{◌≡◌, ◌<◌, ◌≤◌, length};
ghost use Rattle.sl_base.specs.declared.limits.TheConstants.{NAME_BYTES};
ghost use Rattle.sl_specs.specs.Texts as spec;

/// The name of a call: of a member of containers, or of an algorithm.
#[derive(Clone, Copy)]
pub enum Call {
    /// What a declaration calls.
    Constructor,
    /// `=`
    Assignment,
    Begin,
    End,
    Size,
    Empty,
    Front,
    Back,
    At,
    /// `[]`
    Subscript,
    PushBack,
    PushFront,
    PopBack,
    PopFront,
    Insert,
    Emplace,
    Erase,
    Clear,
    Resize,
    Assign,
    Reserve,
    Swap,
    Find,
    Count,
    LowerBound,
    UpperBound,
    Sort,
    Reverse,
    Unique,
    Remove,
    Merge,
    Splice,
    EqualRange,
    BinarySearch,
    Includes,
    SetUnion,
    SetIntersection,
    SetDifference,
    Copy,
    Fill,
    Accumulate,
    Distance,
    Advance,
    Next,
    Prev,
    MinElement,
    MaxElement,
    BackInserter,
}

impl Call {
    /// Its name.
    pub fn text(self) -> &'static str
        ensures value { result.now ≡ spec.call_text self }
        ensures some { 0 < length result.now }
        ensures short { length result.now ≤ NAME_BYTES }
    {
        match self {
            Call::Constructor => "constructor",
            Call::Assignment => "=",
            Call::Begin => "begin",
            Call::End => "end",
            Call::Size => "size",
            Call::Empty => "empty",
            Call::Front => "front",
            Call::Back => "back",
            Call::At => "at",
            Call::Subscript => "[]",
            Call::PushBack => "push_back",
            Call::PushFront => "push_front",
            Call::PopBack => "pop_back",
            Call::PopFront => "pop_front",
            Call::Insert => "insert",
            Call::Emplace => "emplace",
            Call::Erase => "erase",
            Call::Clear => "clear",
            Call::Resize => "resize",
            Call::Assign => "assign",
            Call::Reserve => "reserve",
            Call::Swap => "swap",
            Call::Find => "find",
            Call::Count => "count",
            Call::LowerBound => "lower_bound",
            Call::UpperBound => "upper_bound",
            Call::Sort => "sort",
            Call::Reverse => "reverse",
            Call::Unique => "unique",
            Call::Remove => "remove",
            Call::Merge => "merge",
            Call::Splice => "splice",
            Call::EqualRange => "equal_range",
            Call::BinarySearch => "binary_search",
            Call::Includes => "includes",
            Call::SetUnion => "set_union",
            Call::SetIntersection => "set_intersection",
            Call::SetDifference => "set_difference",
            Call::Copy => "copy",
            Call::Fill => "fill",
            Call::Accumulate => "accumulate",
            Call::Distance => "distance",
            Call::Advance => "advance",
            Call::Next => "next",
            Call::Prev => "prev",
            Call::MinElement => "min_element",
            Call::MaxElement => "max_element",
            Call::BackInserter => "back_inserter",
        }
    }
}
