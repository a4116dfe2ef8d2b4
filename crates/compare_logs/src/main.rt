// Compares two bench logs, left.log and right.log in the folder it is run in: lines for each position, and the last line. A file that is
// missing counts as empty.
#![tactic(auto)]

ghost use Rattle.std.specs.Prelude.{◌≡◌, ◌<◌, IfOk};
ghost use Rattle.log_io.specs.Logs.{Reads};

use bench_log::{Kinds, POSITION_LIMIT, RECORD_SIZE};
use log_io::Said;
use std::fs::Files;
use std::io::Read;

// A piece of a log has so many records.
const RECORDS: usize = 252;

const PIECE_SIZE: usize = RECORDS * RECORD_SIZE;

// Room for the lines of as many positions, and more than the last line takes.
const TEXT_SIZE: usize = RECORDS * POSITION_LIMIT;

// A log: what is said where it fails, the open file until it has ended, and how many octets its partial last record has.
#[derive(Drop)]
struct Log<R> {
    failure: &'static str,
    file: Option<R>,
    tail: u64,
}

impl<R: Read + Drop> Log<R> {
    // Reads the next piece, and gives how many octets it has. The log has ended if the piece is not full. Its partial last record is in the
    // last piece that any octets were read of.
    fn next_piece(&mut self, rt: &impl Eprint, piece: &mut [u8; PIECE_SIZE]) -> Result<usize, Said>
        ensures reads { IfOk result (λ n. Reads R.remaining self.old.file self.new.file n piece.new) }
        ensures ended { IfOk result (λ n. n < PIECE_SIZE → self.new.file ≡ None) }
    {
        let failure = self.failure;
        let length = log_io::read_piece(&mut self.file, piece).map_err(|failed| log_io::say(
            rt,
            failure,
            failed.error,
        ))?;
        if length > 0 {
            self.tail = (length % RECORD_SIZE) as u64;
        }
        if length < PIECE_SIZE {
            self.file = None;
        }
        Ok(length)
    }

    fn has_ended(&self) -> bool {
        self.file.is_none()
    }
}

fn open<R: Files + Eprint>(
    rt: &R,
    path: &[u8],
    failure: &'static str,
) -> Result<Log<R::File>, Said> {
    let file = log_io::open_log(rt, path).map_err(|error| log_io::say(rt, failure, error))?;
    Ok(Log {
        failure,
        file,
        tail: 0,
    })
}

fn write_text(rt: &(impl Print + Eprint), text: &[u8]) -> Result<(), Said> {
    let failure = "compare_logs: standard output cannot be written";
    log_io::write_text(rt, text).map_err(|error| log_io::say(rt, failure, error))
}

// Tells the logs piece by piece, and writes the last line. The pieces are as long as one another, unless a log has ended. Where a read of
// one log failed, the other is read too, and nothing more is told.
fn compare<R: Read + Drop>(
    rt: &(impl Print + Eprint),
    left: &mut Log<R>,
    right: &mut Log<R>,
    left_piece: &mut [u8; PIECE_SIZE],
    right_piece: &mut [u8; PIECE_SIZE],
    text: &mut [u8; TEXT_SIZE],
) -> Result<(), Said> {
    let mut kinds = Kinds {
        positions: 0,
        pairs: 0,
        same_octets: 0,
        same_reading: 0,
        different: 0,
        only_left: 0,
        only_right: 0,
    };
    // a proved loop has to end: no log has so many pieces
    for _ in 0..u64::MAX {
        let left_read = left.next_piece(rt, left_piece);
        let right_read = right.next_piece(rt, right_piece);
        let compared = bench_log::compare(
            &left_piece[..left_read?],
            &right_piece[..right_read?],
            kinds,
            text,
        );
        kinds = compared.kinds;
        write_text(rt, &text[..compared.length])?;
        if left.has_ended() && right.has_ended() {
            break;
        }
    }
    let line = bench_log::sum_line(kinds, left.tail, right.tail, text);
    write_text(rt, &text[..line.length])
}

// Opens both logs, also where one of them fails, and compares them.
fn run<R: Files + Print + Eprint>(rt: &R) -> Result<(), Said> {
    let left = open(rt, b"left.log", "compare_logs: left.log cannot be read");
    let right = open(rt, b"right.log", "compare_logs: right.log cannot be read");
    let (mut left, mut right) = (left?, right?);
    let mut left_piece = [0u8; PIECE_SIZE];
    let mut right_piece = [0u8; PIECE_SIZE];
    let mut text = [0u8; TEXT_SIZE];
    compare(
        rt,
        &mut left,
        &mut right,
        &mut left_piece,
        &mut right_piece,
        &mut text,
    )
}

fn main(rt: HostRuntime) {
    // what failed was said
    let _ = run(&rt);
}
