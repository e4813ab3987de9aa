// drift RECORD REPLAY: compares two outputs of replay line by line and says how far the turn counts drifted and which transfers differ.
// The program reads lines and writes numbers; what a line, a pair of lines and the sheet's numbers are is said by `output` and `measure`.
#![tactic(auto)]

mod report;
mod side;
mod window;

use measure::{Pair, Tally};
use report::Out;
use side::Side;
use std::env::{Env, FillError};
use std::io;

// The pair at a place. A line longer than the window is compared with nothing: it counts as changed.
fn pair(record: &Side<'_>, replay: &Side<'_>) -> Pair {
    match (record.text(), replay.text()) {
        (Some(a), Some(b)) => measure::compare(a, b),
        _ => Pair::only_one(),
    }
}

// One place, where a line is left in either file.
fn compare_place(
    rt: &impl Print,
    record: &Side<'_>,
    replay: &Side<'_>,
    tally: Tally,
    out: &mut Out<'_>,
) -> io::Result<Tally> {
    let p = pair(record, replay);
    let next = tally.add(p);
    let number = next.lines;
    report::flush_if(rt, out);
    report::say_stray(out, record, number)?;
    report::say_stray(out, replay, number)?;
    report::say_drift(out, p, number)?;
    report::say_transfers(out, p, number)?;
    Ok(next)
}

fn every_place(
    rt: &impl Print,
    record: &mut Side<'_>,
    replay: &mut Side<'_>,
    out: &mut Out<'_>,
) -> io::Result<Tally> {
    let mut tally = Tally::new();
    for _ in 0..u64::MAX {
        record.advance();
        replay.advance();
        if !record.has_line() && !replay.has_line() {
            break;
        }
        tally = compare_place(rt, record, replay, tally, out)?;
    }
    Ok(tally)
}

fn compare(rt: &HostRuntime, record: &[u8], replay: &[u8]) -> io::Result<()> {
    let mut a = [0u8; 65536];
    let mut b = [0u8; 65536];
    let mut row = [0u8; 65536];
    let err = rt.stderr();
    let mut record = Side::open(rt, record, &mut a);
    let mut replay = Side::open(rt, replay, &mut b);
    if !report::whole(&err, &record) || !report::whole(&err, &replay) {
        return Ok(());
    }
    let mut out = Out::new(&mut row);
    let tally = every_place(rt, &mut record, &mut replay, &mut out)?;
    if !report::whole(&err, &record) || !report::whole(&err, &replay) {
        return Ok(());
    }
    report::flush_if(rt, &mut out);
    report::say_tally(&mut out, tally)?;
    report::flush(rt, &mut out);
    Ok(())
}

// Puts an argument at the start of the row: its bytes, none of them where the row does not hold it. There may be no such argument.
fn argument<'a>(rt: &impl Env, at: usize, row: &'a mut [u8]) -> Option<&'a [u8]> {
    match rt.arg(at, row) {
        Ok(n) => Some(&row[..n]),
        Err(FillError::TooLong) => Some(&[]),
        Err(FillError::NotPresent) => None,
    }
}

fn main(rt: HostRuntime) -> io::Result<()> {
    let mut record = [0u8; 4096];
    let mut replay = [0u8; 4096];
    let mut more = [0u8; 4096];
    let record = argument(&rt, 1, &mut record);
    let replay = argument(&rt, 2, &mut replay);
    let third = argument(&rt, 3, &mut more);
    match (record, replay, third) {
        (Some(record), Some(replay), None) => compare(&rt, record, replay),
        _ => {
            report::say(
                &rt.stderr(),
                b"drift: two file names are wanted: drift RECORD REPLAY\n",
            );
            Ok(())
        }
    }
}
