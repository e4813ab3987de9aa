// 01 "The replay program": a script's lines played on a cache, a chunk at a time.
// The state is tested once for a chunk, not for each line, and its lines are not copied: the laws that a step keeps a whole state whole carry it on.
// No public function has a `requires`.
#![tactic(auto)]

ghost use Rattle.std.specs.Prelude.{◌≡◌, true, ◌+◌, ◌<◌, ◌≤◌, length, MatchOption};
ghost use Rattle.laws.specs.Choice.{both};
ghost use Rattle.laws.specs.Bytes.{splice};
ghost use Rattle.laws.specs.Refusal.{number};
ghost use Rattle.text.specs.Text.{line_in};
ghost use Rattle.tracker.specs.Answer.{says};
ghost use Rattle.script.specs.Script.{asks};
ghost use Rattle.rules.specs.State.{lengths_right, zero_state};
ghost use Rattle.rules.specs.Whole.{whole};
ghost use Rattle.rules.specs.Calls.{refused};
ghost use Rattle.rules.specs.Run.{Kept};
ghost use Rattle.play.specs.Play.{begins, asked_by, line_end, follows, starts, played, plays, refuses_all};
ghost use Rattle.cache.specs.Seen.{seen, did};
ghost use Rattle.play.specs.Seen.{kept, left, left_refused, beginning, Stops, Goes};

use cache::{Out, State};
use geometry::{Geometry, Shape};
use laws::Refusal;
use script::Command;
use tracker::{Access, Answer, Tracker, Transfers};
use turn::Asked;

// The most leaves that a script can ask for.
const LEAVES: u32 = 800;

// How far a chunk is done: the number of the last line, the bytes of the chunk that are done, the bytes of output that are written.
#[derive(Drop)]
pub struct Place {
    pub number: u64,
    pub taken: usize,
    pub written: usize,
}

// What a chunk leaves beside what is lent: the state, and how far it is done.
#[derive(Drop)]
pub struct Played {
    pub state: State,
    pub place: Place,
}

// What a line asks for.
fn asked(c: Option<Command>) -> Asked
    ensures { result ≡ asked_by (asks c) }
{
    match c {
        Some(Command::Read(x, g, bottom)) => Asked::Issue(u64::from(x), Access::read_of(bottom, g)),
        Some(Command::Write(x, g, v, bottom)) => Asked::Issue(
            u64::from(x),
            Access::write_of(bottom, g, v),
        ),
        Some(Command::Step(x)) => Asked::Step(u64::from(x)),
        Some(Command::Drain) => Asked::Drain,
        Some(Command::New(..)) | None => Asked::Other,
    }
}

// The end of the line that begins at `at`: its newline, or the chunk's end.
fn line_end(input: &[u8], at: usize) -> usize
    requires { at ≤ length input.now }
    ensures { result ≡ line_end input.now at }
{
    match script::find(&input[at..], b'\n') {
        Some(k) => at + k,
        None => input.len(),
    }
}

impl Place {
    // A chunk's beginning, with an empty output.
    fn start(number: u64) -> Place
        ensures { result ≡ beginning number }
    {
        Place {
            number,
            taken: 0,
            written: 0,
        }
    }

    // Where the next line ends, if it ends in the chunk, the output has room for its text, and there is a number for it.
    fn next(&self, input: &[u8], output: &[u8]) -> Option<usize>
        requires { self.now.taken ≤ length input.now }
        ensures { MatchOption result (Stops input.now output.now self.now) (Goes input.now output.now self.now) }
    {
        let e = line_end(input, self.taken);
        if e < input.len() && text::has_room(output, self.written) && self.number < u64::MAX {
            Some(e)
        } else {
            None
        }
    }

    // The line that ends at e has its answer, put into the output where there is room for it.
    fn tell(&mut self, e: usize, output: &mut [u8], answer: Answer, transfers: Transfers)
        requires { (e < 18446744073709551615) × (self.old.number < 18446744073709551615) }
        ensures number { self.new.number ≡ self.old.number + 1 }
        ensures taken { self.new.taken ≡ e + 1 }
        ensures output { output.new ≡ splice output.old self.old.written (line_in output.old self.old.written (self.old.number + 1) (says answer) transfers) }
        ensures written { self.new.written ≡ self.old.written + length (line_in output.old self.old.written (self.old.number + 1) (says answer) transfers) }
    {
        self.number += 1;
        self.taken = e + 1;
        self.written = text::put_line(output, self.written, self.number, answer, transfers);
    }
}

// The lines of a chunk, one after the other: the rows are copied out of the state once, and lent to each line.
fn play_lines(
    state: State,
    number: u64,
    input: &[u8],
    bytes: &mut [u8],
    memory: &mut [u8],
    output: &mut [u8],
) -> Played
    requires { (whole (seen state) ≡ true) × (lengths_right state.shape bytes.old memory.old ≡ true) }
    ensures { left result bytes.new memory.new output.new ≡ played follows (length input.now) input.now (starts (kept state bytes.old memory.old) number output.old) }
{
    let mut shape = state.shape;
    let mut lines = turn::row(state.lines);
    let mut trackers = turn::table(state.trackers);
    let mut place = Place::start(number);
    while let Some(e) = place.next(input, output) {
        let a = asked(script::parse(&input[place.taken..e]));
        let x = turn::named(shape.t, a);
        let r = turn::take(shape, a, &trackers, trackers[x], &mut lines, bytes, memory);
        shape = r.shape;
        trackers[x] = r.tracker;
        place.tell(e, output, r.answer, r.transfers);
    }
    Played {
        state: State {
            shape,
            lines,
            trackers,
        },
        place,
    }
}

// The state is whole and what is lent has the right lengths.
fn is_ready(state: State, bytes: &[u8], memory: &[u8]) -> bool
    ensures { result ≡ both (whole (seen state)) (lengths_right state.shape bytes.now memory.now) }
{
    state.whole() && step::lengths_right(state.shape, bytes, memory)
}

// A chunk of a script whose line 1 was accepted: every whole line of it for which there is room in the output.
pub fn play(
    state: State,
    number: u64,
    input: &[u8],
    bytes: &mut [u8],
    memory: &mut [u8],
    output: &mut [u8],
) -> Played
    ensures { left result bytes.new memory.new output.new ≡ plays (kept state bytes.old memory.old) number input.now output.old }
{
    if !is_ready(state, bytes, memory) {
        return Played {
            state,
            place: Place::start(number),
        };
    }
    play_lines(state, number, input, bytes, memory, output)
}

// A chunk of a script whose line 1 was refused: every whole line of it for which there is room in the output gets 12.
pub fn refuse_all(number: u64, input: &[u8], output: &mut [u8]) -> Place
    ensures { (k : Kept) → left_refused k result output.new ≡ refuses_all k number input.now output.old }
{
    let mut place = Place::start(number);
    while let Some(e) = place.next(input, output) {
        place.tell(
            e,
            output,
            Answer::No(Refusal::OtherForm as u8),
            Transfers::none(),
        );
    }
    place
}

// The end of a chunk's first line: its newline, or the chunk's end.
pub fn first_end(input: &[u8]) -> usize
    ensures { result ≡ line_end input.now 0 }
{
    line_end(input, 0)
}

// A first line that is refused: a state that is zero throughout, as fresh gives it.
fn begin_refused(r: Refusal, bytes: &[u8], memory: &mut [u8]) -> Out
    ensures { did result bytes.now memory.new ≡ refused (number r) zero_state bytes.now memory.old }
{
    Out {
        answer: Answer::No(u8::from(r)),
        ..State::fresh(0, 0, 0, bytes, memory)
    }
}

// Line 1: a fresh memory, N at most 800 (else refusal 1), or its refusal; 12 for a line of another form.
pub fn begin(c: Option<Command>, bytes: &[u8], memory: &mut [u8]) -> Out
    ensures { did result bytes.now memory.new ≡ begins (asks c) bytes.now memory.old }
{
    match c {
        Some(Command::New(n, l, t)) if n <= LEAVES => State::fresh(
            u64::from(n),
            u64::from(t),
            u64::from(l),
            bytes,
            memory,
        ),
        Some(Command::New(..)) => begin_refused(Refusal::OutsideLimits, bytes, memory),
        _ => begin_refused(Refusal::OtherForm, bytes, memory),
    }
}
