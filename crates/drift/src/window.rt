// The bytes of a file that are at hand: those of a lent row, up to an end.
ghost use Rattle.std.specs.Prelude.{◌≤◌, length};

use std::fs::File;
use std::io;
use std::io::Read;

#[derive(Drop)]
pub(crate) struct Window<'a> {
    row: &'a mut [u8],
    end: usize,
    ghost within: { end ≤ length row.now },
}

impl<'a> Window<'a> {
    pub(crate) fn new(row: &'a mut [u8]) -> Window<'a> {
        Window { row, end: 0 }
    }

    pub(crate) fn end(&self) -> usize {
        self.end
    }

    // The bytes from a place to another, where they are there.
    pub(crate) fn part(&self, from: usize, to: usize) -> Option<&[u8]> {
        self.row.get(from..to)
    }

    // The first newline at or after a place.
    pub(crate) fn newline(&self, from: usize) -> Option<usize> {
        let n = self.part(from, self.end)?.iter().position(|b| *b == b'\n')?;
        Some(from.saturating_add(n))
    }

    // Moves the bytes from a place on to the front. Where they fill the row they are let go, and the answer is true.
    pub(crate) fn make_room(&mut self, from: usize) -> bool {
        let from = from.min(self.end);
        self.row.copy_within(from..self.end, 0);
        let kept = self.end - from;
        let full = kept == self.row.len();
        self.end = if full { 0 } else { kept };
        full
    }

    // Reads some bytes behind those at hand: how many, 0 at the end of the file.
    pub(crate) fn read_from(&mut self, file: &mut File) -> io::Result<usize> {
        let n = file.read(&mut self.row[self.end..])?;
        self.end += n;
        Ok(n)
    }
}
