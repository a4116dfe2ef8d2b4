// Lists a bench log: reads standard input to its end, and writes a line for each record and the last line.
#![tactic(auto)]

use bench_log::{LINE_LIMIT, RECORD_SIZE, Totals};
use log_io::Said;
use std::io::Read;

// A piece of the log has so many records, some 64 KiB.
const RECORDS: usize = 252;

const PIECE_SIZE: usize = RECORDS * RECORD_SIZE;

// Room for the lines of a piece, and more than the last line takes.
const TEXT_SIZE: usize = RECORDS * LINE_LIMIT;

fn write_text(rt: &(impl Print + Eprint), text: &[u8]) -> Result<(), Said> {
    let failure = "list_log: standard output cannot be written";
    log_io::write_text(rt, text).map_err(|error| log_io::say(rt, failure, error))
}

// Lists the log piece by piece, and writes the last line after the last piece. The records before a read that failed are listed too.
fn list<R: Read>(
    rt: &(impl Print + Eprint),
    log: &mut Option<R>,
    piece: &mut [u8; PIECE_SIZE],
    text: &mut [u8; TEXT_SIZE],
) -> Result<(), Said> {
    let failure = "list_log: standard input cannot be read";
    let mut totals = Totals {
        records: 0,
        accepted: 0,
        refused: 0,
    };
    // a proved loop has to end: no log has so many pieces
    for _ in 0..u64::MAX {
        let (length, read) = match log_io::read_piece(log, piece) {
            Ok(length) => (length, Ok(())),
            Err(failed) => (failed.length, Err(log_io::say(rt, failure, failed.error))),
        };
        let listed = bench_log::list(&piece[..length], totals, text);
        totals = listed.totals;
        write_text(rt, &text[..listed.length])?;
        read?;
        if length < PIECE_SIZE {
            let line = bench_log::last_line(totals, (length % RECORD_SIZE) as u64, text);
            return write_text(rt, &text[..line.length]);
        }
    }
    Ok(())
}

fn main(rt: HostRuntime) {
    let mut log = Some(rt.stdin());
    let mut piece = [0u8; PIECE_SIZE];
    let mut text = [0u8; TEXT_SIZE];
    // what failed was said
    let _ = list(&rt, &mut log, &mut piece, &mut text);
}
