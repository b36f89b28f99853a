ghost use Rattle.std.specs.Prelude.{◌≡◌, [], ◌∷◌, map, string_bytes, length};
ghost use Rattle.dx_run.specs.Commands.{command_of};
ghost use Rattle.dx_run.specs.CommandLine.{command_meant};

use spv_form::Version;

/// What the words of the command line ask. Names are passed on as they are.
#[derive(Clone, Copy, Debug)]
pub enum CommandLine<'a> {
    /// `translate IN OUT`, or `translate-13 IN OUT`
    Translate {
        version: Version,
        from: &'a str,
        to: &'a str,
    },
    /// `show IN`
    Show {
        from: &'a str,
    },
    /// `check IN`
    Check {
        from: &'a str,
    },
    /// Words of no known form.
    Unknown,
}

/// The command of this name that has one file.
fn of_one_file<'a>(name: &str, from: &'a str) -> CommandLine<'a>
    ensures { command_meant result ≡ command_of (name.now ∷ from.now ∷ []) }
{
    if name == "show" {
        return CommandLine::Show { from };
    }
    if name == "check" {
        return CommandLine::Check { from };
    }
    CommandLine::Unknown
}

/// The command of this name that has two files.
fn of_two_files<'a>(name: &str, from: &'a str, to: &'a str) -> CommandLine<'a>
    ensures { command_meant result ≡ command_of (name.now ∷ from.now ∷ to.now ∷ []) }
{
    if name == "translate" {
        return CommandLine::Translate {
            version: Version::V16,
            from,
            to,
        };
    }
    if name == "translate-13" {
        return CommandLine::Translate {
            version: Version::V13,
            from,
            to,
        };
    }
    CommandLine::Unknown
}

/// Parses the words after the program's name. It takes no memory.
pub fn parse_words(words: &[String]) -> CommandLine<'_>
    ensures { command_meant result ≡ command_of (map string_bytes words.now) }
{
    if words.len() == 2 {
        return of_one_file(words[0].as_str(), words[1].as_str());
    }
    if words.len() == 3 {
        return of_two_files(words[0].as_str(), words[1].as_str(), words[2].as_str());
    }
    CommandLine::Unknown
}
