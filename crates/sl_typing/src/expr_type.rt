ghost use Rattle.std.specs.Prelude.{◌≡◌};
ghost use Rattle.sl_typing.specs.Types as spec;
ghost use Rattle.sl_typing.specs.Arguments.{is_listed, is_sequence, is_reading_iterator};
ghost use Rattle.sl_typing.specs.Rules.{is_const_element, is_not_random, is_forward};
ghost use Rattle.sl_typing.specs.WrongType.{is_entry, is_iterator_pair, is_int_reference, is_exactly, can_step};

use crate::forms::{is_hash, is_keyed, is_map, is_random_access, same_form};
use sl_base::{Form, Scalar};
use sl_syntax::Access;

/// The type of an expression or of a variable.
#[derive(Clone, Copy)]
pub enum ExprType {
    /// Of what isn't as it should be.
    Wrong,
    /// Of what gives nothing.
    Nothing,
    Scalar(Scalar),
    /// An int that is an element of a container; whether it may be written.
    Element(bool),
    /// An iterator; whether its container is const, and its form.
    Iterator(bool, Form),
    /// What `insert` and `emplace` give where a key comes at most once.
    IteratorAndBool(Form),
    /// What `equal_range` gives; whether the container is const.
    IteratorPair(bool, Form),
    Container(Access, Form),
    /// A scalar variable that is handed to a parameter by reference.
    Handed(Scalar),
    /// A reference to an int that is an element; whether it may be written.
    IntReference(bool),
    /// A reference to an element with a key and a value; whether the value may be written.
    EntryReference(bool),
}

/// Whether two types of numbers are one.
pub fn same_scalar(x: Scalar, y: Scalar) -> bool
    ensures { result ≡ spec.same_scalar x y }
{
    x as u8 == y as u8
}

/// The type in which two numbers meet.
pub fn common(x: Scalar, y: Scalar) -> Scalar
    ensures { result ≡ spec.common x y }
{
    match (x, y) {
        (Scalar::Size, _) => Scalar::Size,
        (_, Scalar::Size) => Scalar::Size,
        (Scalar::Diff, _) => Scalar::Diff,
        (_, Scalar::Diff) => Scalar::Diff,
        _ => Scalar::Int,
    }
}

/// Whether a container is const.
pub fn is_const(access: Access) -> bool
    ensures { result ≡ spec.is_const access }
{
    matches!(access, Access::Const)
}

impl ExprType {
    /// Whether it is a number of this type; an element is an int.
    pub fn is_scalar(self, scalar: Scalar) -> bool
        ensures { result ≡ spec.is_scalar scalar self }
    {
        match self {
            ExprType::Scalar(own) => same_scalar(scalar, own),
            ExprType::Element(_) => same_scalar(scalar, Scalar::Int),
            _ => false,
        }
    }

    /// Whether it is the type of a scalar variable of this type.
    pub fn is_exactly(self, scalar: Scalar) -> bool
        ensures { result ≡ is_exactly scalar self }
    {
        match self {
            ExprType::Scalar(own) => same_scalar(scalar, own),
            _ => false,
        }
    }

    /// Whether it is a number of any type.
    pub fn is_number(self) -> bool
        ensures { result ≡ spec.is_number self }
    {
        matches!(self, ExprType::Scalar(_) | ExprType::Element(_))
    }

    /// Whether it is a number that may be written.
    pub fn is_written(self) -> bool
        ensures { result ≡ spec.is_written self }
    {
        match self {
            ExprType::Scalar(_) => true,
            ExprType::Element(writable) => writable,
            _ => false,
        }
    }

    /// Whether it is an element.
    pub fn is_element(self) -> bool
        ensures { result ≡ spec.is_element self }
    {
        matches!(self, ExprType::Element(_))
    }

    /// Whether it is an element that may not be written.
    pub fn is_const_element(self) -> bool
        ensures { result ≡ is_const_element self }
    {
        matches!(self, ExprType::Element(false))
    }

    /// Whether it is an int or a bool, which an element of a list in braces may be.
    pub fn is_listed(self) -> bool
        ensures { result ≡ is_listed self }
    {
        self.is_scalar(Scalar::Int) | self.is_scalar(Scalar::Bool)
    }

    /// Whether `++` and `--` take it.
    pub fn can_step(self) -> bool
        ensures { result ≡ can_step self }
    {
        (self.is_number() & !self.is_scalar(Scalar::Bool)) | self.is_iterator()
    }

    /// The type of a number's value; what is no number keeps its own.
    pub fn value(self) -> ExprType
        ensures { result ≡ spec.value_type self }
    {
        match self {
            ExprType::Element(_) => ExprType::Scalar(Scalar::Int),
            other => other,
        }
    }

    /// The type of a number; that of what is none is int.
    pub fn scalar(self) -> Scalar
        ensures { result ≡ spec.scalar_of self }
    {
        match self {
            ExprType::Scalar(own) => own,
            _ => Scalar::Int,
        }
    }

    /// Whether it is an iterator.
    pub fn is_iterator(self) -> bool
        ensures { result ≡ spec.is_iterator self }
    {
        matches!(self, ExprType::Iterator(_, _))
    }

    /// Whether it is an iterator of a form.
    pub fn is_iterator_of(self, form: Form) -> bool
        ensures { result ≡ spec.is_iterator_of form self }
    {
        match self {
            ExprType::Iterator(_, own) => same_form(form, own),
            _ => false,
        }
    }

    /// Whether it is an iterator to ints.
    pub fn is_int_iterator(self) -> bool
        ensures { result ≡ spec.is_int_iterator self }
    {
        match self {
            ExprType::Iterator(_, own) => !is_map(own),
            _ => false,
        }
    }

    /// Whether it is an iterator to pairs of a key and a value.
    pub fn is_map_iterator(self) -> bool
        ensures { result ≡ spec.is_map_iterator self }
    {
        match self {
            ExprType::Iterator(_, own) => is_map(own),
            _ => false,
        }
    }

    /// Whether it is an iterator that goes both ways.
    pub fn is_bidirectional(self) -> bool
        ensures { result ≡ spec.is_bidirectional self }
    {
        match self {
            ExprType::Iterator(_, own) => !is_hash(own),
            _ => false,
        }
    }

    /// Whether it is a random access iterator.
    pub fn is_random(self) -> bool
        ensures { result ≡ spec.is_random self }
    {
        match self {
            ExprType::Iterator(_, own) => is_random_access(own),
            _ => false,
        }
    }

    /// Whether it is an iterator, but no random access iterator.
    pub fn is_not_random(self) -> bool
        ensures { result ≡ is_not_random self }
    {
        self.is_iterator() & !self.is_random()
    }

    /// Whether it is an iterator that doesn't go back.
    pub fn is_forward(self) -> bool
        ensures { result ≡ is_forward self }
    {
        self.is_iterator() & !self.is_bidirectional()
    }

    /// Whether it is an iterator through which nothing is written.
    pub fn is_reading_iterator(self) -> bool
        ensures { result ≡ is_reading_iterator self }
    {
        match self {
            ExprType::Iterator(is_const, own) => is_const | is_keyed(own),
            _ => false,
        }
    }

    /// Whether both are iterators of one type.
    pub fn same_iterators(self, other: ExprType) -> bool
        ensures { result ≡ spec.same_iterators self other }
    {
        match (self, other) {
            (ExprType::Iterator(x, form), ExprType::Iterator(y, other)) => {
                (x == y) & same_form(form, other)
            }
            _ => false,
        }
    }

    /// Whether both are iterators of one form.
    pub fn same_iterator_forms(self, other: ExprType) -> bool
        ensures { result ≡ spec.same_iterator_forms self other }
    {
        match (self, other) {
            (ExprType::Iterator(_, form), ExprType::Iterator(_, other)) => same_form(form, other),
            _ => false,
        }
    }

    /// Whether it is an iterator that goes where one of this constness and form is asked for.
    pub fn goes_into(self, is_const: bool, form: Form) -> bool
        ensures { result ≡ spec.goes_into is_const form self }
    {
        match self {
            ExprType::Iterator(own, own_form) => same_form(form, own_form) & (is_const | !own),
            _ => false,
        }
    }

    /// Whether it is a container.
    pub fn is_container(self) -> bool
        ensures { result ≡ spec.is_container self }
    {
        matches!(self, ExprType::Container(_, _))
    }

    /// Whether it is a container of a form that may be read.
    pub fn is_container_of(self, form: Form) -> bool
        ensures { result ≡ spec.is_container_of form self }
    {
        match self {
            ExprType::Container(Access::Elements, _) => false,
            ExprType::Container(_, own) => same_form(form, own),
            _ => false,
        }
    }

    /// Whether it is a container to whose end elements are put.
    pub fn is_sequence(self) -> bool
        ensures { result ≡ is_sequence self }
    {
        match self {
            ExprType::Container(_, own) => !is_keyed(own),
            _ => false,
        }
    }

    /// Whether it is a const container.
    pub fn is_const_container(self) -> bool
        ensures { result ≡ spec.is_const_container self }
    {
        matches!(self, ExprType::Container(Access::Const, _))
    }

    /// Whether both are containers of one form.
    pub fn same_containers(self, other: ExprType) -> bool
        ensures { result ≡ spec.same_containers self other }
    {
        match (self, other) {
            (ExprType::Container(_, form), ExprType::Container(_, other)) => same_form(form, other),
            _ => false,
        }
    }

    /// Whether it is the element of a range-for over a map.
    pub fn is_entry(self) -> bool
        ensures { result ≡ is_entry self }
    {
        matches!(self, ExprType::EntryReference(_))
    }

    /// Whether it is a pair of iterators.
    pub fn is_iterator_pair(self) -> bool
        ensures { result ≡ is_iterator_pair self }
    {
        matches!(self, ExprType::IteratorPair(_, _))
    }

    /// Whether it is a reference to an int.
    pub fn is_int_reference(self) -> bool
        ensures { result ≡ is_int_reference self }
    {
        matches!(self, ExprType::IntReference(_))
    }
}
