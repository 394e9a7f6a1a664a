//! The words of the command line.
ghost use Rattle.std.specs.Prelude.{◌≡◌, ◌<◌, ◌≤◌, ℕ, List, [], ◌∷◌, map, string_bytes, decimal, length, Some, IfSome, codes};
ghost use Rattle.std.specs.Prelude.{IsTrue, option_map};
ghost use Rattle.ssu_io.specs.FileName.{is_file_name};
ghost use Rattle.ssu_status.specs.Words.{IsCommandLine, IsInRange, MakesFile, Task, words_of, file_made_by, task_of};

use crate::number::number;
use ssu_answer::FileName;
use ssu_io::file_name;
use ts_packet::Pid;

/// A command with its arguments.
#[derive(Clone, Copy, Debug, PartialEq, Eq)]
pub enum Command {
    /// `hear PID`: the sections of a PID.
    Hear(Pid),
    /// `load PID`: a group of the carousel on a PID.
    Load(Pid),
    /// `find`: the way to an update.
    Find,
    /// `show`: the same, and each section that is heard on it.
    Show,
    /// `build`: the packets of a plan.
    Build,
    /// `blank N`: a blank flash of 4 to 65,536 blocks.
    Blank(u32),
    /// `format FILE`: a flash with the image in a file.
    Format(FileName),
    /// `boot`: the image that boot takes.
    Boot,
    /// `migrate`: layout 2 in place of layout 1, with the same image.
    Migrate,
    /// `replay`: the packets of `air.ts` to the loader of the box.
    Replay,
    /// `air`: the packets of `air.ts` through a script.
    Air,
    /// `audit PID`: the carousel on a PID, before it goes on air.
    Audit(Pid),
    /// `audit PID NOTICE`: the same, with its notice on another PID.
    AuditWithNotice(Pid, Pid),
    /// `sample N`: a broadcast that is made of a number of 0 to 999,999, in memory.
    Sample(u32),
}

impl Command {
    /// The command of the words, which are a folder, a command and its arguments. `None` exactly where
    /// they are no command line.
    pub fn parse(words: &[String]) -> Option<Command>
        ensures found { IfSome result (λ c. IsCommandLine (map string_bytes words.now) (task_of c)) }
        ensures only { (t : Task) → IsCommandLine (map string_bytes words.now) t → option_map task_of result ≡ Some t }
    {
        match words {
            [_, command] => alone(command),
            [_, command, argument] => with_argument(command, argument),
            [_, command, first, second] => with_two(command, first, second),
            _ => None,
        }
    }

    /// The name of the file that the command makes in the folder. Empty where it makes none.
    pub fn made_file(&self) -> FileName
        ensures { result.bytes ≡ file_made_by (task_of self.now) }
    {
        match self {
            Command::Hear(_)
            | Command::Find
            | Command::Show
            | Command::Format(_)
            | Command::Migrate
            | Command::Replay
            | Command::Audit(_)
            | Command::AuditWithNotice(_, _)
            | Command::Sample(_) => FileName::new(),
            Command::Load(_) => named("group.bin"),
            Command::Build => named("air.ts"),
            Command::Blank(_) => named("flash.bin"),
            Command::Boot => named("image.bin"),
            Command::Air => named("aired.ts"),
        }
    }
}

fn named(name: &str) -> FileName
    requires { length name.now ≤ 64 }
    ensures { result.bytes ≡ name.now }
{
    let mut named = FileName::new();
    named.push_str(name);
    named
}

fn alone(command: &str) -> Option<Command>
    ensures spelled { IfSome result (λ c. words_of (task_of c) ≡ command.now ∷ []) }
    ensures in_range { IfSome result (λ c. IsInRange (task_of c)) }
    ensures only { (t : Task) → IsInRange t → words_of t ≡ command.now ∷ [] → option_map task_of result ≡ Some t }
{
    match command {
        "find" => Some(Command::Find),
        "show" => Some(Command::Show),
        "build" => Some(Command::Build),
        "boot" => Some(Command::Boot),
        "migrate" => Some(Command::Migrate),
        "replay" => Some(Command::Replay),
        "air" => Some(Command::Air),
        _ => None,
    }
}

fn with_argument(command: &str, argument: &str) -> Option<Command>
    ensures spelled { IfSome result (λ c. words_of (task_of c) ≡ command.now ∷ argument.now ∷ []) }
    ensures in_range { IfSome result (λ c. IsInRange (task_of c)) }
    ensures only { (t : Task) → IsInRange t → words_of t ≡ command.now ∷ argument.now ∷ [] → option_map task_of result ≡ Some t }
{
    match command {
        "hear" => Some(Command::Hear(pid(argument)?)),
        "load" => Some(Command::Load(pid(argument)?)),
        "blank" => Some(Command::Blank(blocks(argument)?)),
        "format" => Some(Command::Format(file(argument)?)),
        "audit" => Some(Command::Audit(pid(argument)?)),
        "sample" => Some(Command::Sample(number(argument, 999_999)?)),
        _ => None,
    }
}

fn with_two(command: &str, first: &str, second: &str) -> Option<Command>
    ensures spelled { IfSome result (λ c. words_of (task_of c) ≡ command.now ∷ first.now ∷ second.now ∷ []) }
    ensures in_range { IfSome result (λ c. IsInRange (task_of c)) }
    ensures only { (t : Task) → IsInRange t → words_of t ≡ command.now ∷ first.now ∷ second.now ∷ [] → option_map task_of result ≡ Some t }
{
    match command {
        "audit" => with_notice(first, second),
        _ => None,
    }
}

fn with_notice(first: &str, second: &str) -> Option<Command>
    ensures spelled { IfSome result (λ c. words_of (task_of c) ≡ codes "audit" ∷ first.now ∷ second.now ∷ []) }
    ensures in_range { IfSome result (λ c. IsInRange (task_of c)) }
    ensures only { (t : Task) → IsInRange t → words_of t ≡ codes "audit" ∷ first.now ∷ second.now ∷ [] → option_map task_of result ≡ Some t }
{
    let carousel = pid(first)?;
    let notice = pid(second)?;
    if carousel == notice {
        return None;
    }
    Some(Command::AuditWithNotice(carousel, notice))
}

fn pid(word: &str) -> Option<Pid>
    ensures written { IfSome result (λ n. word.now ≡ decimal n) }
    ensures fits { IfSome result (λ n. n < 8192) }
    ensures only { (n : ℕ) → n < 8192 → word.now ≡ decimal n → result ≡ Some n }
{
    Pid::new(number(word, 8191)? as u16)
}

fn blocks(word: &str) -> Option<u32>
    ensures written { IfSome result (λ n. word.now ≡ decimal n) }
    ensures least { IfSome result (λ n. 4 ≤ n) }
    ensures most { IfSome result (λ n. n ≤ 65536) }
    ensures only { (n : ℕ) → 4 ≤ n → n ≤ 65536 → word.now ≡ decimal n → result ≡ Some n }
{
    let blocks = number(word, 65_536)?;
    if blocks < 4 {
        return None;
    }
    Some(blocks)
}

fn file(word: &str) -> Option<FileName>
    ensures written { IfSome result (λ n. word.now ≡ n.bytes) }
    ensures fits { IfSome result (λ n. IsTrue (is_file_name n.bytes)) }
    ensures only { IsTrue (is_file_name word.now) → option_map (λ n. n.bytes) result ≡ Some word.now }
{
    file_name(word)
}

/// The name of the file that the words make in the folder. Empty where they make none, and where they are
/// no command line.
pub fn made_file(words: &[String]) -> FileName
    ensures { MakesFile (map string_bytes words.now) result.bytes }
{
    match Command::parse(words) {
        Some(command) => command.made_file(),
        None => FileName::new(),
    }
}
