use sl_base::Scalar;

/// What a call gives.
#[derive(Clone, Copy)]
pub enum ReturnType {
    Nothing,
    Number(Scalar),
    /// An iterator into the object.
    Iterator,
    /// An iterator into the object, and whether an element came in.
    IteratorAndBool,
    /// Two iterators into the object.
    IteratorPair,
    /// An element of the object.
    Element,
    /// An iterator of the type of the first argument.
    FirstArgument,
    /// An iterator of the type of the output, and nothing where that is an appender.
    Output,
    /// What only an output may be: an appender.
    Appender,
}
