//! Single words, and the types that are written with few.
ghost use Rattle.std.specs.Prelude.{◌≡◌, ◌==◌, if◌then◌else◌, ◌<◌, ◌≤◌, ◌++◌, [], ◌∷◌, length, OnOk};
ghost use Rattle.sl_base.specs.declared.limits.TheConstants.{NAME_BYTES};
ghost use Rattle.sl_syntax.specs.Written as spec;

use crate::tree::{ContainerType, ElementType, Identifier};
use sl_base::{Form, Items, Mark, Name, Scalar, Word};
use std::alloc::AllocError;

/// Writes a mark.
pub fn write_mark(out: &mut Items<Word>, mark: Mark) -> Result<(), AllocError>
    ensures { OnOk result (out.new ≡ out.old ++ Word.Mark mark ∷ []) }
{
    out.push(Word::Mark(mark))
}

/// Writes a comma before each part of a list but the first.
pub fn write_comma_before(out: &mut Items<Word>, position: usize) -> Result<(), AllocError>
    ensures { OnOk result (out.new ≡ out.old ++ (if position == 0 then [] else Word.Mark Mark.Comma ∷ [])) }
{
    if position == 0 {
        return Ok(());
    }
    write_mark(out, Mark::Comma)
}

/// The word of a name.
pub fn name_word(x: &Identifier) -> Word
    ensures { result ≡ Word.Name x.now.name }
{
    Word::Name(Name::new(x.name.as_slice()))
}

/// Writes a name.
pub fn write_name(out: &mut Items<Word>, x: &Identifier) -> Result<(), AllocError>
    ensures { OnOk result (out.new ≡ out.old ++ Word.Name x.now.name ∷ []) }
{
    out.push(name_word(x))
}

/// The key with these bytes.
pub fn key(bytes: &[u8]) -> Word
    requires some { 0 < length bytes.now }
    requires short { length bytes.now ≤ NAME_BYTES }
    ensures { result ≡ Word.Key bytes.now }
{
    Word::Key(Name::new(bytes))
}

/// The name with these bytes behind `std::`.
pub fn lib(bytes: &[u8]) -> Word
    requires some { 0 < length bytes.now }
    requires short { length bytes.now ≤ NAME_BYTES }
    ensures { result ≡ Word.Lib bytes.now }
{
    Word::Lib(Name::new(bytes))
}

/// `true` or `false`
pub fn truth_word(value: bool) -> Word
    ensures { result ≡ spec.truth_word value }
{
    if value { key(b"true") } else { key(b"false") }
}

/// The type of a number.
pub fn scalar_word(scalar: Scalar) -> Word
    ensures { result ≡ spec.scalar_word scalar }
{
    match scalar {
        Scalar::Int => key(b"int"),
        Scalar::Bool => key(b"bool"),
        Scalar::Size => lib(b"size_t"),
        Scalar::Diff => lib(b"ptrdiff_t"),
    }
}

/// The type of an element.
pub fn element_word(element: ElementType) -> Word
    ensures { result ≡ spec.element_word element }
{
    match element {
        ElementType::Int => key(b"int"),
        ElementType::Auto => key(b"auto"),
    }
}

fn form_word(form: Form) -> Word
    ensures { result ≡ spec.form_word form }
{
    match form {
        Form::Vector => lib(b"vector"),
        Form::Deque => lib(b"deque"),
        Form::List => lib(b"list"),
        Form::Set => lib(b"set"),
        Form::Map => lib(b"map"),
        Form::HashSet => lib(b"unordered_set"),
        Form::HashMap => lib(b"unordered_map"),
        Form::MultiSet => lib(b"multiset"),
        Form::MultiMap => lib(b"multimap"),
    }
}

/// Writes `<int>`, or `<int, int>` for a map.
fn write_elements(out: &mut Items<Word>, is_map: bool) -> Result<(), AllocError>
    ensures { OnOk result (out.new ≡ out.old ++ spec.words_of (spec.elements_written is_map)) }
{
    write_mark(out, Mark::Less)?;
    out.push(key(b"int"))?;
    if is_map {
        write_mark(out, Mark::Comma)?;
        out.push(key(b"int"))?;
    }
    write_mark(out, Mark::Greater)
}

/// Writes the type of a container.
pub fn write_container(out: &mut Items<Word>, container: ContainerType) -> Result<(), AllocError>
    ensures { OnOk result (out.new ≡ out.old ++ spec.words_of (spec.container_written container)) }
{
    out.push(form_word(container.form))?;
    write_elements(out, container.is_map())
}
