//! `ssu FOLDER COMMAND ARGUMENTS`: DVB System Software Update over the files of a folder.
#![tactic(auto)]

mod making;

use flash_dev::FileFlash;
use making::MadeFile;
use ssu_io::{FolderShelf, RealSink, RealSource, Sink, StdSink};
use ssu_status::{Command, Status};
use ssu_tool::{command_of, made_file, run_spared};
use std::alloc::{AllocError, Global};
use std::fs::File;
use std::os::unix::fs::FileTypeExt;
use std::process::ExitCode;
use std::rt::{Env, Files};
use std::{env, fs, io};

const HELP: &str = "usage: ssu FOLDER COMMAND ARGUMENTS

  hear PID      writes the right whole sections of the PID in air.ts to standard output
  load PID      takes a group out of the carousel on the PID in air.ts into group.bin
  find          prints how far the way to an update for the box in box.toml leads in air.ts
  show          prints each section heard on the way, and then what find prints
  build         makes air.ts, the broadcast that plan.toml asks for
  blank N       makes flash.bin, a blank flash of N blocks of 4096 bytes, 4 to 65536
  format FILE   formats flash.bin with the image in FILE and the software in box.toml
  boot          takes the image that boot takes in flash.bin into image.bin
  migrate       gives flash.bin layout 2, which has room for a journal, and keeps its image
  replay        replays air.ts to the loader of the box in box.toml, which installs an update in flash.bin
  air           puts the packets of air.ts through the script in script.toml into aired.ts
  audit PID     checks the carousel on the PID in air.ts: whether all that have a group whole have one image of it
  audit PID N   the same, with its notice on PID N
  sample N      makes a broadcast of a number, 0 to 999999, and replays it to a box, all in memory

format, boot, migrate and replay may end in `spares S`, with S from 1 to 255: S blocks of flash.bin are spares for failing ones, and one more
is their map. The number is stored nowhere: give the same one each time. format forgets all replacements.

Exit codes: 0 done or installed, 2 wrong words, 3 box.toml refused, 4 plan refused, 5 flash is foreign, 6 nothing found,
7 incomplete, 8 bad module, 9 file absent, 10 read failed, 11 write failed, 12 flash failed, 13 records worn out,
14 input too long, 15 out of memory, 16 image does not fit, 17 wrong geometry, 18 file could not be read, 19 unsettled,
20 build refused, 21 audit refused.

ssu --help and ssu --version print this text and the version.
";

const VERSION: &str = "ssu 0.1.0\n";

fn main(rt: HostRuntime) -> ExitCode {
    let status = match words_of(&rt) {
        Ok(words) => answer(&rt, &words),
        Err(status) => status,
    };
    let text = status.text();
    if !text.is_empty() {
        // Where standard error cannot be written, the code alone tells.
        let _ = eprintln!(rt; "ssu: {text}");
    }
    ExitCode::from(status.code())
}

/// The words behind the program's name. A word that is not UTF-8 is a wrong word.
fn words_of(rt: &(impl Env + AllocGlobal)) -> Result<Vec<String>, Status> {
    let args = env::args(rt).map_err(status_of)?;
    args.skip(1)
        .collect(rt.alloc())
        .map_err(|_| Status::NoMemory)
}

fn status_of(error: io::Error) -> Status {
    match error.kind() {
        io::ErrorKind::OutOfMemory => Status::NoMemory,
        _ => Status::Usage,
    }
}

/// Answers the words: `--help` and `--version` here, all others by `run_spared` over the files of the folder.
fn answer(rt: &(impl Files + Print + AllocGlobal), words: &[String]) -> Status {
    match words {
        [word] if word.as_str() == "--help" => printed(rt, HELP),
        [word] if word.as_str() == "--version" => printed(rt, VERSION),
        _ => match in_folder(rt, words) {
            Ok(status) => status,
            Err(_) => Status::NoMemory,
        },
    }
}

fn printed(rt: &impl Print, text: &str) -> Status {
    match StdSink::new(rt).put(text.as_bytes()) {
        Ok(()) => Status::Done,
        Err(_) => Status::WriteFault,
    }
}

/// Runs the command on the files of the folder, which is the first word. Wrong words open nothing.
fn in_folder(
    rt: &(impl Files + Print + AllocGlobal),
    words: &[String],
) -> Result<Status, AllocError> {
    let command = command_of(words);
    if command.is_none() {
        return on_files(rt, words, command);
    }
    match guard(rt) {
        Ok(_held) => on_files(rt, words, command),
        Err(_) => Ok(Status::WriteFault),
    }
}

/// What lies under the numbers of standard input, output and error where those were closed, and else under three more.
type Guard<R> = (<R as Files>::File, <R as Files>::File, <R as Files>::File);

/// Opens a folder for reading, three times. The system gives each opening the lowest number that is free, so while these
/// are held no file of a command comes under the number of standard input, output or error, also where one of them was
/// closed. What is written there then, or read, is a fault, as it is where nothing is open.
fn guard<R: Files>(rt: &R) -> io::Result<Guard<R>> {
    let opened = || File::open(rt, "/");
    Ok((opened()?, opened()?, opened()?))
}

/// Makes the adapters and runs the command. The flash is opened at once, each other file at the first call on it.
fn on_files(
    rt: &(impl Files + Print + AllocGlobal),
    words: &[String],
    command: Option<Command>,
) -> Result<Status, AllocError> {
    let alloc = rt.alloc();
    let folder = folder_of(words);
    let mut shelf = FolderShelf::new(rt, String::from_str(alloc, folder)?);
    let mut air = RealSource::new(rt, path(alloc, folder, "air.ts")?);
    let flash = flash_of(rt, path(alloc, folder, "flash.bin")?, command);
    let made_path = path(alloc, folder, made_file(words).as_str())?;
    let mut made = MadeFile::new(RealSink::new(rt, made_path.clone()?));
    let mut out = StdSink::new(rt);
    let (_, status) = run_spared(
        alloc, words, &mut shelf, &mut air, flash, &mut made, &mut out,
    );
    if matches!(command, Some(Command::Blank(_))) && made.is_cut_short() {
        empty(rt, &made_path);
    }
    Ok(status)
}

/// Empties a file, which is then no flash. What is no file, as a device, stays as it is.
fn empty(rt: &impl Files, path: &str) {
    let is_file = fs::metadata(rt, path).is_ok_and(|found| found.is_file());
    if is_file {
        // Where that fails too, the status alone tells.
        let _ = File::create(rt, path);
    }
}

/// The folder of the words. An empty word is the current folder.
fn folder_of(words: &[String]) -> &str {
    match words.first() {
        Some(folder) if !folder.is_empty() => folder.as_str(),
        _ => ".",
    }
}

/// The flash of a command. `boot` opens it for reading alone, and a command that does not use it has one without a file.
/// A pipe is opened for both also by `boot`, since its opening for reading alone would wait for a writer.
fn flash_of<R: Files + AllocGlobal>(
    rt: &R,
    path: String,
    command: Option<Command>,
) -> FileFlash<'_, R> {
    match command {
        Some(Command::Format(_) | Command::Migrate | Command::Replay) => FileFlash::new(rt, path),
        Some(Command::Boot) if is_pipe(rt, &path) => FileFlash::new(rt, path),
        Some(Command::Boot) => FileFlash::read_only(rt, path),
        _ => FileFlash::read_only(rt, String::new(rt.alloc())),
    }
}

fn is_pipe(rt: &impl Files, path: &str) -> bool {
    fs::metadata(rt, path).is_ok_and(|found| found.file_type().is_fifo())
}

fn path(alloc: Global, folder: &str, name: &str) -> Result<String, AllocError> {
    format!(in alloc; "{folder}/{name}")
}
