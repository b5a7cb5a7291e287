// The words of the command line.
ghost use Rattle.std.specs.Prelude.{◌≡◌, map, string_bytes};
ghost use Rattle.kernel_cli.specs.Words.{command_of};

/// The allowance of a run that names none, where the words name none either.
pub const DEFAULT_STEPS: u32 = 100_000;

/// What the words ask for.
#[derive(Clone, Copy, Debug, PartialEq, Eq)]
pub enum Command {
    /// Answer a log of lines. `steps` is the allowance of a run that names none.
    Run { steps: u32 },
}

/// The shape that the words have, the program's own name left out: `run`. `None` exactly where they have none. Takes no
/// memory.
pub fn read_words(words: &[String]) -> Option<Command>
    ensures { result ≡ command_of (map string_bytes words.now) }
{
    match words {
        [word] => {
            if word.as_str() == "run" {
                return Some(Command::Run {
                    steps: DEFAULT_STEPS,
                });
            }
            None
        }
        _ => None,
    }
}
