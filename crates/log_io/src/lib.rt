// What the programs over bench logs share: opening a log, reading it piece by piece, writing what was laid out, and saying on standard
// error what failed.
#![tactic(auto)]

ghost use Rattle.std.specs.Prelude.{◌≡◌, ◌≢◌, ◌<◌, [], IfOk, IfErr, IsOk, IsErr, IsErrAnd, length};
ghost use Rattle.std.specs.Io.KnownBytes.{IsAtEnd};
ghost use Rattle.std.specs.IoError.{error_kind};
ghost use Rattle.std.specs.Str.{IsUtf8};
ghost use Rattle.log_io.specs.Logs.{octets_left, Reads};

use std::fmt::InlineText;
use std::fs::{File, Files};
use std::io;
use std::io::{Error, ErrorKind, Read};

// Room for the words of an error, which are cut short where they are longer.
const WORDS_SIZE: usize = 128;

// A read that failed: how many octets of the piece were read before, and why it failed.
#[derive(Clone, Copy, Debug)]
pub struct ReadError {
    pub length: usize,
    pub error: Error,
}

// What failed was said on standard error.
#[derive(Clone, Copy, Debug, PartialEq, Eq)]
pub struct Said;

// Opens the file of this name, which has to be text.
fn open_path<R: Files>(rt: &R, path: &[u8]) -> io::Result<R::File>
    ensures { ¬ (IsUtf8 path.now) → IsErrAnd result (λ error. error_kind error ≡ ErrorKind.InvalidFilename) }
{
    match std::str::from_utf8(path) {
        Ok(text) => File::open(rt, text),
        Err(_) => Err(Error::from(ErrorKind::InvalidFilename)),
    }
}

// What opening a log gave: none where there is no such file, which is no failure. Every other failure is one.
fn found<F>(opened: io::Result<F>) -> io::Result<Option<F>>
    ensures there { IfOk opened (λ log. result ≡ Ok (Some log)) }
    ensures missing { IfErr opened (λ error. error_kind error ≡ ErrorKind.NotFound → result ≡ Ok None) }
    ensures fails { IfErr opened (λ error. error_kind error ≢ ErrorKind.NotFound → result ≡ Err error) }
{
    match opened {
        Ok(log) => Ok(Some(log)),
        Err(error) if error.kind() == ErrorKind::NotFound => Ok(None),
        Err(error) => Err(error),
    }
}

// Opens a log to be read: none where there is no such file. A path that is not text counts as one that cannot be opened.
pub fn open_log<R: Files>(rt: &R, path: &[u8]) -> io::Result<Option<R::File>>
    ensures { ¬ (IsUtf8 path.now) → IsErr result }
{
    found(open_path(rt, path))
}

// Reads until the piece is full or the log ends, and gives how many octets were read. A log that is missing is read as an empty one, and
// the piece is left as it was.
pub fn read_piece<R: Read>(log: &mut Option<R>, piece: &mut [u8]) -> Result<usize, ReadError>
    ensures ok { IfOk result (λ n. Reads R.remaining log.old log.new n piece.new) }
    ensures ended { IfOk result (λ n. n < length piece.new → IsAtEnd (octets_left R.remaining log.new)) }
    ensures err { IfErr result (λ failed. Reads R.remaining log.old log.new failed.length piece.new) }
    ensures missing { log.old ≡ None → result ≡ Ok 0 }
    ensures missing_left { log.old ≡ None → piece.new ≡ piece.old }
{
    let Some(log) = log else {
        return Ok(0);
    };
    let mut length = 0;
    while length < piece.len() {
        match log.read(&mut piece[length..]) {
            Ok(0) => break,
            Ok(n) => length += n,
            Err(error) => return Err(ReadError { length, error }),
        }
    }
    Ok(length)
}

// Writes a text to standard output. To write none cannot fail.
pub fn write_text(rt: &impl Print, text: &[u8]) -> io::Result<()>
    ensures { text.now ≡ [] → IsOk result }
{
    if text.is_empty() {
        return Ok(());
    }
    rt.write_all(text)
}

// Says on standard error what failed and why, in the system's words, after which an error is printed with its number. Each piece is a
// write of its own: where standard error is nearly full, it takes those that fit.
pub fn say(rt: &impl Eprint, failure: &str, error: Error) -> Said {
    let said = InlineText::<WORDS_SIZE>::of(error);
    let text = said.as_str();
    let words = match text.rsplit_once(" (os error ") {
        Some((words, _)) => words,
        None => text,
    };
    for piece in [failure, ": ", words, "\n"] {
        // where standard error takes nothing, there is nobody to be told
        let _ = eprint!(rt; "{piece}");
    }
    Said
}
