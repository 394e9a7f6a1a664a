//! The answer of a run.
ghost use Rattle.std.specs.Prelude.{◌≡◌, ◌+◌, ◌≤◌, ◌++◌, decimal, length};
ghost use Rattle.ssu_status.specs.Status.{code_of, refusal_text, status_of, text_of};

use arrayvec::ArrayString;
use audit_answer::AuditNo;
use itoa::Buffer;
use ssu_answer::{BuildFault, Chosen, FileName, Level, Verdict};
use toml_fields::FieldName;

/// A text on standard error, without `ssu: ` before it.
pub type Text = ArrayString<96>;

/// What came of a command.
#[derive(Clone, Copy, Debug, PartialEq, Eq)]
pub enum Status {
    Done,
    /// The group is whole, and boot takes it.
    Installed(Chosen),
    /// The words are no command line.
    Usage,
    /// The first bad field of `box.toml`.
    BoxRefused(FieldName),
    /// The first bad field of `plan.toml`, or of `script.toml` with `script.` before it.
    PlanRefused(FieldName),
    /// The contents of the flash are not sound.
    Foreign,
    /// No group was found: the first level of the way that has no value.
    Nothing(Level),
    /// The group is not whole at the end of the input: so many of its places are missing.
    Incomplete(Chosen, u32),
    /// The module with this id has not the CRC that its descriptor gives: the CRC that is wanted, and the one found.
    BadModule(u16, u32, u32),
    /// The folder has no file of this name.
    Absent(FileName),
    /// The input failed.
    ReadFault,
    /// An output failed.
    WriteFault,
    /// The flash failed.
    FlashFault,
    /// The number of the current record is 4,294,967,295, and none comes after it.
    Worn,
    /// The input has a byte behind 16,777,216 packets.
    TooLong,
    NoMemory,
    /// The image is longer than a bank of the flash.
    NoFit,
    /// The flash has a block size, or a number of blocks, that it cannot be used with.
    Geometry,
    /// A file of the folder could not be read.
    ShelfFault,
    /// A seventeenth choice of a group would begin.
    Unsettled,
    /// The sections of the plan are not made.
    BuildRefused(BuildFault),
    /// The first fact against the stream that was audited.
    AuditRefused(AuditNo),
}

impl Status {
    /// The status of a verdict.
    pub fn of(verdict: Verdict) -> Status
        ensures { result ≡ status_of verdict }
    {
        match verdict {
            Verdict::Installed(chosen) => Status::Installed(chosen),
            Verdict::Nothing(level) => Status::Nothing(level),
            Verdict::Incomplete(chosen, missing) => Status::Incomplete(chosen, missing),
            Verdict::BadModule(id, want, found) => Status::BadModule(id, want, found),
            Verdict::Unsettled => Status::Unsettled,
        }
    }

    /// The exit code of the program.
    pub fn code(&self) -> u8
        ensures { result ≡ code_of self.now }
    {
        match self {
            Status::Done | Status::Installed(_) => 0,
            Status::Usage => 2,
            Status::BoxRefused(_) => 3,
            Status::PlanRefused(_) => 4,
            Status::Foreign => 5,
            Status::Nothing(_) => 6,
            Status::Incomplete(_, _) => 7,
            Status::BadModule(_, _, _) => 8,
            Status::Absent(_) => 9,
            Status::ReadFault => 10,
            Status::WriteFault => 11,
            Status::FlashFault => 12,
            Status::Worn => 13,
            Status::TooLong => 14,
            Status::NoMemory => 15,
            Status::NoFit => 16,
            Status::Geometry => 17,
            Status::ShelfFault => 18,
            Status::Unsettled => 19,
            Status::BuildRefused(_) => 20,
            Status::AuditRefused(_) => 21,
        }
    }

    /// What the program says on standard error, behind `ssu: `. Empty where it says nothing.
    pub fn text(&self) -> Text
        ensures { result.bytes ≡ text_of self.now }
    {
        match self {
            Status::Usage => text("usage"),
            Status::BoxRefused(field) => behind("box.toml refused at ", field),
            Status::PlanRefused(field) => behind("plan refused at ", field),
            Status::Foreign => text("flash is foreign"),
            Status::Absent(name) => before(name, " is absent"),
            Status::ReadFault => text("read failed"),
            Status::WriteFault => text("write failed"),
            Status::FlashFault => text("flash failed"),
            Status::Worn => text("records are worn out"),
            Status::TooLong => text("input too long"),
            Status::NoMemory => text("out of memory"),
            Status::NoFit => text("image does not fit"),
            Status::Geometry => text("flash has a wrong geometry"),
            Status::ShelfFault => text("file could not be read"),
            Status::BuildRefused(fault) => build_text(fault),
            Status::Done
            | Status::Installed(_)
            | Status::Nothing(_)
            | Status::Incomplete(_, _)
            | Status::BadModule(_, _, _)
            | Status::Unsettled
            | Status::AuditRefused(_) => text(""),
        }
    }
}

fn build_text(fault: &BuildFault) -> Text
    ensures { result.bytes ≡ refusal_text fault.now }
{
    match fault {
        BuildFault::ImageTooLong(name) => before(name, " is too long"),
        BuildFault::TooManySections(count) => counted("too many sections: ", *count),
        BuildFault::Memory => text(""),
    }
}

fn text(words: &str) -> Text
    requires { length words.now ≤ 96 }
    ensures { result.bytes ≡ words.now }
{
    let mut text = Text::new();
    text.push_str(words);
    text
}

fn behind(words: &str, name: &FieldName) -> Text
    requires { length words.now ≤ 64 }
    ensures { result.bytes ≡ words.now ++ name.now.bytes }
{
    let mut text = Text::new();
    text.push_str(words);
    text.push_str(name.as_str());
    text
}

fn before(name: &FileName, words: &str) -> Text
    requires { length words.now ≤ 32 }
    ensures { result.bytes ≡ name.now.bytes ++ words.now }
{
    let mut text = Text::new();
    text.push_str(name.as_str());
    text.push_str(words);
    text
}

fn counted(words: &str, count: u64) -> Text
    requires { length words.now ≤ 64 }
    ensures { result.bytes ≡ words.now ++ decimal count }
{
    let mut digits = Buffer::new();
    let mut text = Text::new();
    text.push_str(words);
    text.push_str(digits.format(count));
    text
}
