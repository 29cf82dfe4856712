//! What the words of a command ask for.
ghost use Rattle.std.specs.Prelude.{◌≡◌};
ghost use Rattle.sl_tool.specs.Command.{command_of, words_of};
ghost use Rattle.sl_tool.specs.Means.Commands.{as_data};

/// What the words behind the program's name ask for.
#[derive(Clone, Copy)]
pub enum Command<'a> {
    /// `check FILE`
    Check(&'a str),
    /// `specs`
    Specs,
    /// Anything else.
    Unknown,
}

/// The command that these words are.
pub fn command_in(words: &[String]) -> Command<'_>
    ensures { as_data result ≡ command_of (words_of words.now) }
{
    match words {
        [word] if word.as_str() == "specs" => Command::Specs,
        [word, file] if word.as_str() == "check" => Command::Check(file.as_str()),
        _ => Command::Unknown,
    }
}
