// 01 "The replay program": the text of an answer, a line of the output.
// No public function has a `requires`.
#![tactic(auto)]

ghost use Rattle.std.specs.Prelude.{◌≡◌, ◌++◌, ◌+◌, ◌≤◌, ◌<◌, length};
ghost use Rattle.laws.specs.Bytes.{splice, fits};
ghost use Rattle.tracker.specs.Answer.{says, read};
ghost use Rattle.wording.specs.Text.{digit_text, digits, places, decimal, said_text, transfers_text, gains, line_text, most, line_in};
ghost use Rattle.text.specs.Line.{Room, Puts, PutsIn};

use tracker::{Answer, Transfers};

// The bytes that are kept free for a line; none is longer.
pub const MOST: usize = 64;

// A digit's byte.
fn digit(d: u64) -> u8
    requires { d < 16 }
    ensures { result ≡ digit_text d }
{
    if d < 10 {
        b'0' + d as u8
    } else {
        b'a' + (d - 10) as u8
    }
}

// How many decimal digits v has: at most 20.
fn count(v: u64) -> usize
    ensures { result ≡ places v }
{
    if v == 0 { 1 } else { v.ilog10() as usize + 1 }
}

// The digits of v fill the row, the last first.
fn put_digits(out: &mut [u8], base: u64, v: u64)
    requires { (0 < base) × (base ≤ 16) }
    ensures { out.new ≡ digits base (length out.old) v }
{
    let mut rest = v;
    for i in (0..out.len()).rev() {
        out[i] = digit(rest % base);
        rest /= base;
    }
}

// A lent row, and the place in it where the next text goes.
// Kept: methods that put bytes, no `impl Display` written into the row: std's `write` says what the row holds on Ok alone, and nothing says that it is Ok where there is room, while `put_line` ensures the bytes always.
#[derive(Drop)]
struct Line<'a> {
    out: &'a mut [u8],
    at: usize,
}

impl Line<'_> {
    // The text.
    fn put(&mut self, text: &[u8])
        requires { Room self.old (length text.now) }
        ensures { Puts self.old self.new text.now }
    {
        let end = self.at + text.len();
        self.out[self.at..end].copy_from_slice(text);
        self.at = end;
    }

    // The w digits of v.
    fn digits(&mut self, base: u64, w: usize, v: u64)
        requires { (0 < base) × (base ≤ 16) × Room self.old w }
        ensures { Puts self.old self.new (digits base w v) }
    {
        let end = self.at + w;
        put_digits(&mut self.out[self.at..end], base, v);
        self.at = end;
    }

    // A number in decimal.
    fn decimal(&mut self, v: u64)
        requires { Room self.old (places v) }
        ensures { Puts self.old self.new (decimal v) }
    {
        self.digits(10, count(v), v);
    }

    // A word and a number in decimal.
    fn counted(&mut self, word: &[u8], k: u64)
        requires { Room self.old (length word.now + places k) }
        ensures { Puts self.old self.new (word.now ++ decimal k) }
    {
        self.put(word);
        self.decimal(k);
    }

    // `read V turns K`
    fn read(&mut self, v: u64, k: u64)
        requires { Room self.old (20 + places k) }
        ensures { Puts self.old self.new (said_text (read v k)) }
    {
        self.put(b"read ");
        self.digits(16, 8, v);
        self.counted(b" turns ", k);
    }

    // What the answer says, at most 25 bytes.
    fn said(&mut self, answer: Answer)
        requires { Room self.old 25 }
        ensures { PutsIn 25 self.old self.new (said_text (says answer)) }
    {
        match answer {
            Answer::Accepted => self.put(b"ok"),
            Answer::Wait => self.put(b"wait"),
            Answer::Moved => self.put(b"moved"),
            Answer::Read(v, k) => self.read(u64::from(v), u64::from(k)),
            Answer::Done(k) => self.counted(b"done turns ", u64::from(k)),
            Answer::Same(k) => self.counted(b"same turns ", u64::from(k)),
            Answer::No(c) => self.counted(b"no ", u64::from(c)),
        }
    }

    // ` in I out O`, at most 15 bytes.
    fn transfers(&mut self, transfers: Transfers)
        requires { Room self.old 15 }
        ensures { PutsIn 15 self.old self.new (transfers_text transfers) }
    {
        self.counted(b" in ", u64::from(transfers.fetched));
        self.counted(b" out ", u64::from(transfers.back));
    }

    // What the answer gains, at most 15 bytes.
    fn gains(&mut self, answer: Answer, transfers: Transfers)
        requires { Room self.old 15 }
        ensures { PutsIn 15 self.old self.new (gains (says answer) transfers) }
    {
        match answer {
            Answer::Read(..) | Answer::Done(_) | Answer::Same(_) => self.transfers(transfers),
            Answer::Accepted | Answer::Wait | Answer::Moved | Answer::No(_) => {}
        }
    }

    // What is said and what it gains, at most 40 bytes.
    fn answer(&mut self, answer: Answer, transfers: Transfers)
        requires { Room self.old 40 }
        ensures { PutsIn 40 self.old self.new (said_text (says answer) ++ gains (says answer) transfers) }
    {
        self.said(answer);
        self.gains(answer, transfers);
    }

    // The line, with its newline.
    fn whole(&mut self, k: u64, answer: Answer, transfers: Transfers)
        requires { Room self.old most }
        ensures { Puts self.old self.new (line_text k (says answer) transfers) }
    {
        self.decimal(k);
        self.put(b" ");
        self.answer(answer, transfers);
        self.put(b"\n");
    }
}

// There is room in `out` from `at` for any line.
pub fn has_room(out: &[u8], at: usize) -> bool
    ensures { result ≡ fits out.now at most }
{
    MOST <= out.len() && at <= out.len() - MOST
}

// The line goes into `out` from `at` where there is room for any line, else nothing changes; gives the place after it.
pub fn put_line(out: &mut [u8], at: usize, k: u64, answer: Answer, transfers: Transfers) -> usize
    ensures { (out.new ≡ splice out.old at (line_in out.old at k (says answer) transfers)) × (result ≡ at + length (line_in out.old at k (says answer) transfers)) }
{
    if has_room(out, at) {
        let mut line = Line { out, at };
        line.whole(k, answer, transfers);
        line.at
    } else {
        at
    }
}
