//! The commands, by the words of the command line.
//!
//! To add a command: a variant and its words here and in `command_of` of specs/Answers, its row of `Answers` there, what it
//! answers in answer.rt, its part of `top` in program.rt, and its page in docs/COMMANDS.md. `rt check` here, then `rt ci`.

ghost use Rattle.std.specs.Prelude.{◌≡◌};
ghost use Rattle.pm_top.specs.Answers.{command_of};

/// What the program is asked to do.
#[derive(Clone, Copy, Debug, PartialEq, Eq)]
pub enum Command {
    /// Reads a derivation, and says whether each line follows.
    Check,
    /// Reads a script, and writes a derivation of its lemmas.
    Run,
    /// Reads a script, and writes the goals that are left at its end.
    Goals,
}

/// The command that the words after the program's name are, if they are one.
pub fn command_of(words: &[String]) -> Option<Command>
    ensures { result ≡ command_of words.now }
{
    match words {
        [word] => {
            if word.as_str() == "check" {
                Some(Command::Check)
            } else if word.as_str() == "run" {
                Some(Command::Run)
            } else if word.as_str() == "goals" {
                Some(Command::Goals)
            } else {
                None
            }
        }
        _ => None,
    }
}
