// What drift writes: the places that drifted, those whose transfers differ, the lines that are none of replay, the sheet's numbers.
ghost use Rattle.std.specs.Prelude.{◌≤◌, length};

use crate::side::Side;
use measure::{Pair, Tally};
use std::io;
use std::io::{ErrorKind, Write};

// The output is written out before a place that could need more than is left: two file names and four lines.
const FULL: usize = 57000;

// What is put, in a lent row: the bytes up to a place.
#[derive(Drop)]
pub(crate) struct Out<'a> {
    row: &'a mut [u8],
    at: usize,
    ghost within: { at ≤ length row.now },
}

impl<'a> Out<'a> {
    pub(crate) fn new(row: &'a mut [u8]) -> Out<'a> {
        Out { row, at: 0 }
    }
}

impl Write for Out<'_> {
    fn write(&mut self, s: &[u8]) -> io::Result<usize> {
        let n = s.len().min(self.row.len() - self.at);
        self.write_all(&s[..n])?;
        Ok(n)
    }

    // One copy, where the trait's own goes round `write`.
    fn write_all(&mut self, s: &[u8]) -> io::Result<()> {
        let Some(to) = self.row[self.at..].get_mut(..s.len()) else {
            return Err(io::Error::from(ErrorKind::WriteZero));
        };
        to.copy_from_slice(s);
        self.at += s.len();
        Ok(())
    }

    fn flush(&mut self) -> io::Result<()> {
        Ok(())
    }
}

// Writes bytes to a standard stream. A write that fails is let go.
pub(crate) fn say(to: &impl Print, s: &[u8]) {
    let _ = to.write_all(s);
}

// Writes out what was put, and begins anew.
pub(crate) fn flush(rt: &impl Print, out: &mut Out<'_>) {
    say(rt, &out.row[..out.at]);
    out.at = 0;
}

pub(crate) fn flush_if(rt: &impl Print, out: &mut Out<'_>) {
    if FULL < out.at {
        flush(rt, out);
    }
}

// Names a line that is no line of replay.
pub(crate) fn say_stray(out: &mut Out<'_>, x: &Side<'_>, number: u64) -> io::Result<()> {
    if x.strays() {
        out.write_all(x.name)?;
        writeln!(out, " line {number} is no line of replay")?;
    }
    Ok(())
}

// An ending with another turn count.
pub(crate) fn say_drift(out: &mut Out<'_>, p: Pair, number: u64) -> io::Result<()> {
    let Some(e) = p.ending else {
        return Ok(());
    };
    if p.drift() == 0 {
        return Ok(());
    }
    let (k, l) = (e.recorded.turns, e.replayed.turns);
    writeln!(out, "{number} turns {k} now {l}")
}

// An ending with other transfers.
pub(crate) fn say_transfers(out: &mut Out<'_>, p: Pair, number: u64) -> io::Result<()> {
    let Some((t, u)) = p.other_transfers() else {
        return Ok(());
    };
    writeln!(
        out,
        "{number} in {} out {} now {} {}",
        t.fetched, t.back, u.fetched, u.back
    )
}

// The sheet: the five lines on turns and the two on transfers. The farthest has no line number where nothing drifted.
pub(crate) fn say_tally(out: &mut Out<'_>, t: Tally) -> io::Result<()> {
    writeln!(out, "endings {}", t.endings)?;
    writeln!(out, "drifted {}", t.drifted)?;
    if t.farthest == 0 {
        writeln!(out, "farthest 0")?;
    } else {
        writeln!(out, "farthest {} line {}", t.farthest, t.line)?;
    }
    writeln!(out, "total {}", t.total)?;
    writeln!(out, "changed {}", t.changed)?;
    let (a, b) = (t.recorded, t.replayed);
    writeln!(out, "in {} now {}", a.fetched, b.fetched)?;
    writeln!(out, "out {} now {}", a.back, b.back)
}

// Whether all of a file was read; a sentence on standard error says it where not.
pub(crate) fn whole(err: &impl Print, x: &Side<'_>) -> bool {
    if x.failed() {
        say(err, b"drift: the file ");
        say(err, x.name);
        say(err, b" cannot be read\n");
    }
    !x.failed()
}
