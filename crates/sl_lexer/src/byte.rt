ghost use Rattle.std.specs.Prelude.{◌≡◌, ◌==◌};
ghost use Rattle.sl_base.specs.Bytes as spec;
ghost use Rattle.sl_lexer.specs.Means.Front as front;

/// What may begin with a byte.
#[derive(Clone, Copy)]
pub enum First {
    Blank,
    Letter,
    Digit,
    /// `"`
    Quote,
    /// `'`
    Apostrophe,
    /// `#`
    Hash,
    Other,
}

/// A space or a tab.
pub fn is_space(byte: u8) -> bool
    ensures { result ≡ spec.is_space byte }
{
    byte == b' ' || byte == b'\t'
}

/// A space, a tab, a carriage return or a line feed.
pub fn is_blank(byte: u8) -> bool
    ensures { result ≡ spec.is_blank byte }
{
    is_space(byte) || byte == b'\r' || byte == b'\n'
}

pub fn is_digit(byte: u8) -> bool
    ensures { result ≡ spec.is_digit byte }
{
    byte.is_ascii_digit()
}

/// A letter or `_`.
pub fn is_letter(byte: u8) -> bool
    ensures { result ≡ spec.is_letter byte }
{
    byte.is_ascii_lowercase() || byte.is_ascii_uppercase() || byte == b'_'
}

/// What a name goes on with.
pub fn is_name_byte(byte: u8) -> bool
    ensures { result ≡ spec.is_name_byte byte }
{
    is_letter(byte) || is_digit(byte)
}

/// What may not directly follow a number.
pub fn spoils_number(byte: u8) -> bool
    ensures { result ≡ spec.spoils_number byte }
{
    is_name_byte(byte) || byte == b'.' || byte == b'\''
}

/// Whether this byte stands at the front.
pub fn begins(byte: u8, rest: &[u8]) -> bool
    ensures { result ≡ spec.begins (λ b. b == byte) rest.now }
{
    match rest {
        [first, ..] => *first == byte,
        [] => false,
    }
}

/// What may begin with a byte that is no blank, letter or digit.
fn other_of(byte: u8) -> First
    ensures { result ≡ front.other_of byte }
{
    match byte {
        b'"' => First::Quote,
        b'\'' => First::Apostrophe,
        b'#' => First::Hash,
        _ => First::Other,
    }
}

/// What may begin with a byte.
pub fn first_of(byte: u8) -> First
    ensures { result ≡ front.first_of byte }
{
    if is_blank(byte) {
        First::Blank
    } else if is_letter(byte) {
        First::Letter
    } else if is_digit(byte) {
        First::Digit
    } else {
        other_of(byte)
    }
}
