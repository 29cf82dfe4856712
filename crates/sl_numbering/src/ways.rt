//! How operands are handed over.
ghost use Rattle.std.specs.Prelude.{◌≡◌, ◌++◌, replicate};
ghost use Rattle.sl_typing.specs.Arguments as arguments;
ghost use Rattle.sl_typing.specs.Numbering as spec;
ghost use Rattle.sl_numbering.specs.WaysView.{way_seen, ways_seen};

use sl_base::Scalar;
use sl_specs::Letter;
use sl_syntax::typed::ParameterKind;

/// How an operand is handed over.
#[derive(Clone, Copy)]
pub enum Way {
    AsItIs,
    /// As a number of a type.
    AsNumber(Scalar),
    /// As the variable itself.
    AsVariable,
}

/// How operands are handed over, from the first on. Operands past these are handed over as they are.
#[derive(Clone, Copy)]
pub enum Ways<'a> {
    /// To these letters of a row.
    Letters(&'a [Letter]),
    /// To the second end of a range, and then to these letters.
    EndOfRange(&'a [Letter]),
    /// To these parameters of a function.
    Parameters(&'a [ParameterKind]),
    /// As so many elements of a list in braces.
    Elements(usize),
}

impl<'a> Ways<'a> {
    /// The first way. It takes no memory.
    pub fn first(self) -> Way
        ensures { way_seen result ≡ spec.first_way (ways_seen self.entry) }
    {
        match self {
            Ways::Letters([letter, ..]) => letter_way(*letter),
            Ways::Parameters([kind, ..]) => parameter_way(*kind),
            Ways::Elements(count) => element_way(count),
            _ => Way::AsItIs,
        }
    }

    /// All ways but the first. It takes no memory.
    pub fn others(self) -> Ways<'a>
        ensures { ways_seen result ≡ spec.other_ways (ways_seen self.entry) }
    {
        match self {
            Ways::Letters([letter, rest @ ..]) => behind_letter(*letter, rest),
            Ways::EndOfRange(letters) => Ways::Letters(letters),
            Ways::Parameters([_, rest @ ..]) => Ways::Parameters(rest),
            Ways::Elements(count) => Ways::Elements(count.saturating_sub(1)),
            none => none,
        }
    }
}

// The way of the first argument of a letter.
fn letter_way(letter: Letter) -> Way
    ensures { way_seen result ≡ spec.first_way (spec.letter_ways letter) }
{
    match letter {
        Letter::Count => Way::AsNumber(Scalar::Size),
        Letter::Element | Letter::Key => Way::AsNumber(Scalar::Int),
        Letter::Distance | Letter::OptionalDistance => Way::AsNumber(Scalar::Diff),
        _ => Way::AsItIs,
    }
}

// Whether a letter stands for the two ends of a range.
fn is_range(letter: Letter) -> bool
    ensures { result ≡ arguments.is_range letter }
{
    matches!(
        letter,
        Letter::OwnRange
            | Letter::IntRange
            | Letter::SecondIntRange
            | Letter::WrittenRange
            | Letter::RandomAccessRange
            | Letter::AnyRange
    )
}

// The ways behind the first argument of a letter, before which these come.
fn behind_letter(letter: Letter, rest: &[Letter]) -> Ways<'_>
    ensures { ways_seen result ≡ spec.other_ways (spec.letter_ways letter ++ spec.ways rest.now) }
{
    if is_range(letter) {
        Ways::EndOfRange(rest)
    } else {
        Ways::Letters(rest)
    }
}

/// The way of a parameter. It takes no memory.
pub fn parameter_way(kind: ParameterKind) -> Way
    ensures { way_seen result ≡ spec.parameter_way kind }
{
    match kind {
        ParameterKind::Value(scalar) => Way::AsNumber(scalar),
        ParameterKind::Reference(_) => Way::AsVariable,
        _ => Way::AsItIs,
    }
}

// The way of the first of so many elements.
fn element_way(count: usize) -> Way
    ensures { way_seen result ≡ spec.first_way (replicate count (spec.as_number Scalar.Int)) }
{
    if count == 0 {
        Way::AsItIs
    } else {
        Way::AsNumber(Scalar::Int)
    }
}
