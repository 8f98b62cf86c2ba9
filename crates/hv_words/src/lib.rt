//! The command words of the program.
#![tactic(auto)]

ghost use Rattle.std.specs.Prelude.{◌≡◌, ◌≢◌, ◌∷◌, [], map, slice_index, string_bytes};
ghost use Rattle.hv_words.specs.Table.{command_of, digits_number, number_of};

/// What the program is to do.
#[derive(Clone, Copy, Debug, PartialEq, Eq)]
pub enum Command {
    /// `run`: run a job and report on it; with `--plain`, on the engine that keeps nothing besides the state.
    Run { plain: bool },
    /// `check`: run each watched machine of a job alone.
    Check,
    /// `asm`: assemble a text.
    Asm,
    /// `dis`: disassemble words.
    Dis,
    /// `debug`: run a job's debugger commands.
    Debug,
    /// `save`: run a job, and write its first watched machine as a text.
    Save,
    /// `gen N`: make the job of a number and run it.
    Gen { number: u32 },
}

/// The words name no command.
#[derive(Clone, Copy, Debug, PartialEq, Eq)]
pub struct Usage;

/// The command that the words name. They are taken as they are spelled: no others, none repeated, none further. A number is
/// `0`, or decimal digits without a leading zero.
pub fn read_words(words: &[String]) -> Result<Command, Usage>
    ensures { result ≡ command_of (map string_bytes words.now) }
{
    match words {
        [word] => of_one(word.as_str()),
        [word, next] => of_two(word.as_str(), next.as_str()),
        _ => Err(Usage),
    }
}

fn of_one(word: &str) -> Result<Command, Usage>
    ensures { result ≡ command_of (word.now ∷ []) }
{
    match word {
        "run" => Ok(Command::Run { plain: false }),
        "check" => Ok(Command::Check),
        "asm" => Ok(Command::Asm),
        "dis" => Ok(Command::Dis),
        "debug" => Ok(Command::Debug),
        "save" => Ok(Command::Save),
        _ => Err(Usage),
    }
}

fn of_two(word: &str, next: &str) -> Result<Command, Usage>
    ensures { result ≡ command_of (word.now ∷ next.now ∷ []) }
{
    match (word, next) {
        ("run", "--plain") => Ok(Command::Run { plain: true }),
        ("gen", number) => match number_in(number) {
            Some(number) => Ok(Command::Gen { number }),
            None => Err(Usage),
        },
        _ => Err(Usage),
    }
}

// The number that a word is.
fn number_in(word: &str) -> Option<u32>
    ensures { result ≡ number_of word.now }
{
    match word.as_bytes() {
        [b'+', ..] | [b'0', _, ..] => None,
        _ => digits(word),
    }
}

// The number that digits without a sign are.
fn digits(word: &str) -> Option<u32>
    requires { slice_index word.now 0 ≢ 43 }
    ensures { result ≡ digits_number word.now }
{
    word.parse().ok()
}

#[cfg(test)]
mod tests;
