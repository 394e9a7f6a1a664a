//! The words `spares S` at the end of a command line.
ghost use Rattle.std.specs.Prelude.{◌≡◌, ◌↔◌, ◌≤◌, ℕ, List, IfSome, IsSomeAnd, IsTrue, None, Some, codes, decimal, map, option_map, string_bytes};
ghost use Rattle.ssu_tool.specs.Spares.{AsksSpared, EndsInSpares, IsFlashCommand, IsOnFlash, MakesFile};
ghost use Rattle.ssu_status.specs.Words.{IsCommandLine, Task, task_of};

use itoa::Buffer;
use ssu_status::{Command, FileName};

/// The words `spares S` at the end of a command line, and what stands before them.
#[derive(Clone, Copy, Debug, PartialEq, Eq)]
pub struct Spared {
    /// S, the number of spares: 1 to 255.
    pub spares: u32,
    /// The command of the words before, where they are `format FILE`, `boot`, `migrate` or `replay` with their folder.
    pub command: Option<Command>,
}

impl Spared {
    /// The end of these words, where it is `spares S`. `None` exactly where they do not end so.
    pub fn parse(words: &[String]) -> Option<Spared>
        ensures ends { IfSome result (λ it. (front : List (List ℕ)) × EndsInSpares (map string_bytes words.now) front it.spares) }
        ensures only { (front : List (List ℕ)) (spares : ℕ) → EndsInSpares (map string_bytes words.now) front spares
            → IsSomeAnd result (λ it. (it.spares ≡ spares) × IsFlashCommand front it.command) }
    {
        let Some((count, rest)) = words.split_last() else {
            return None;
        };
        let Some((keyword, front)) = rest.split_last() else {
            return None;
        };
        if !is_keyword(keyword) {
            return None;
        }
        let Some(spares) = number(count) else {
            return None;
        };
        if spares == 0 {
            return None;
        }
        Some(Spared {
            spares: u32::from(spares),
            command: flash_command(front),
        })
    }
}

fn is_keyword(word: &str) -> bool
    ensures { IsTrue result ↔ (word.now ≡ codes "spares") }
{
    word == "spares"
}

/// The command of the words, where it works on the flash.
fn flash_command(words: &[String]) -> Option<Command>
    ensures { IsFlashCommand (map string_bytes words.now) result }
{
    let Some(command) = Command::parse(words) else {
        return None;
    };
    if is_on_flash(&command) {
        Some(command)
    } else {
        None
    }
}

fn is_on_flash(command: &Command) -> bool
    ensures { IsTrue result ↔ IsOnFlash (task_of command.now) }
{
    matches!(
        command,
        Command::Format(_) | Command::Boot | Command::Migrate | Command::Replay
    )
}

/// The number up to 255 that the word writes, in decimal digits without a sign and without a leading zero but in `0`.
fn number(word: &str) -> Option<u8>
    ensures written { IfSome result (λ n. word.now ≡ decimal n) }
    ensures only { (n : ℕ) → n ≤ 255 → word.now ≡ decimal n → result ≡ Some n }
{
    let n = parsed(word)?;
    if !is_written(n, word) {
        return None;
    }
    Some(n)
}

fn parsed(word: &str) -> Option<u8>
    ensures { (n : ℕ) → n ≤ 255 → word.now ≡ decimal n → result ≡ Some n }
{
    word.parse::<u8>().ok()
}

fn is_written(n: u8, word: &str) -> bool
    ensures { IsTrue result ↔ (word.now ≡ decimal n) }
{
    let mut buffer = Buffer::new();
    buffer.format(n) == word
}

/// The name of the file that the words make in the folder, also where `spares S` stands behind the words of a command of
/// the flash. Empty where they make none, and where they are no such words.
pub fn made_file(words: &[String]) -> FileName
    ensures { MakesFile (map string_bytes words.now) result.bytes }
{
    match command_of(words) {
        Some(command) => command.made_file(),
        None => FileName::new(),
    }
}

/// The command that the words ask for, also where `spares S` stands behind the words of one that works on the flash. `None`
/// exactly where they are no such words.
pub fn command_of(words: &[String]) -> Option<Command>
    ensures line { (t : Task) → IsCommandLine (map string_bytes words.now) t → option_map task_of result ≡ Some t }
    ensures spared { (t : Task) → AsksSpared (map string_bytes words.now) t → option_map task_of result ≡ Some t }
    ensures none { ((t : Task) → IsCommandLine (map string_bytes words.now) t → ⊥)
        → ((t : Task) → AsksSpared (map string_bytes words.now) t → ⊥) → result ≡ None }
{
    match Command::parse(words) {
        Some(command) => Some(command),
        None => {
            let Some(spared) = Spared::parse(words) else {
                return None;
            };
            spared.command
        }
    }
}
