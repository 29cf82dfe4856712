ghost use Rattle.std.specs.Prelude.{◌≡◌, ◌+◌, ◌-◌, ◌^◌, ◌<◌, ◌≤◌, ◌++◌, List, ℕ, length};
ghost use Rattle.sl_base.specs.Places.{place_at};

/// A line and a column, from 1. A column is a byte, and only a line feed ends a line.
#[derive(Clone, Copy, Debug)]
pub struct Place {
    pub line: u32,
    pub col: u32,
}

impl Place {
    ghost use Rattle.sl_base.specs.Places.{IsAfter};

    /// The place of a text's first byte.
    pub const FIRST: Place = Place { line: 1, col: 1 };

    /// The place directly behind these bytes, the first of which stands here.
    pub fn after(self, bytes: &[u8]) -> Place
        requires lines { self.line + length bytes.now < 2 ^ 32 }
        requires cols { self.col + length bytes.now < 2 ^ 32 }
        ensures { (front : List ℕ) → IsAfter front self → IsAfter (front ++ bytes.now) result }
    {
        let mut line = self.line;
        let mut col = self.col;
        for byte in bytes {
            if *byte == b'\n' {
                line += 1;
                col = 1;
            } else {
                col += 1;
            }
        }
        Place { line, col }
    }
}

/// The place of an offset, in bytes from 0. An offset past the text has the place directly behind the text.
/// It takes no memory.
pub fn place_of(text: &[u8], offset: usize) -> Place
    requires short { length text.now < 2 ^ 32 - 1 }
    ensures { result ≡ place_at text.now offset }
{
    Place::FIRST.after(&text[..offset.min(text.len())])
}
