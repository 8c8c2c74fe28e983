//! The commands.
ghost use Rattle.std.specs.Prelude.{◌≡◌};
ghost use Rattle.bg_words.specs.Commands as definition;

/// A command of the program.
#[derive(Clone, Copy, Debug, PartialEq, Eq)]
pub enum Command {
    /// `compose`: the composition of two bigraphs.
    Compose,
    /// `check`: whether a text is a model.
    Check,
    /// `show`: the system that a model is.
    Show,
    /// `match`: where the rules of a model occur.
    Match,
    /// `run`: a run of the system that a model is.
    Run,
    /// `replay`: whether a journal is a run of the system that a model is, and to which host it comes.
    Replay,
    /// `trial`: where the rules of a model that is made occur, and a run of it. It reads nothing.
    Trial,
}

impl Command {
    ghost use Rattle.std.specs.Prelude.{◌≡◌};
    ghost use Rattle.bg_words.specs.Commands as definition;

    /// Whether the command reads an input.
    pub fn is_reading(self) -> bool
        ensures { result ≡ definition.is_reading self }
    {
        match self {
            Command::Trial => false,
            Command::Compose
            | Command::Check
            | Command::Show
            | Command::Match
            | Command::Run
            | Command::Replay => true,
        }
    }
}

/// The command with that name, where there is one.
pub(crate) fn command_of(name: &str) -> Option<Command>
    ensures { result ≡ definition.command_of name.now }
{
    match name {
        "compose" => Some(Command::Compose),
        "check" => Some(Command::Check),
        "show" => Some(Command::Show),
        "match" => Some(Command::Match),
        "run" => Some(Command::Run),
        "replay" => Some(Command::Replay),
        "trial" => Some(Command::Trial),
        _ => None,
    }
}
