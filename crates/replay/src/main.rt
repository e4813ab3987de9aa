// 01 "The replay program": a script on standard input, its answers on standard output.
// The script is read in chunks. The whole lines of a chunk are played where they lie, and what is left moves to the buffer's front.
#![tactic(auto)]

ghost use Rattle.std.specs.Prelude.{◌≡◌, ◌≤◌, ◌<◌, length};

use cache::State;
use geometry::Geometry;
use play::Played;
use script::Command;
use std::io::{Read, Stdin, Stdout, Write};
use tracker::Answer;

// One byte more than a line of a script can have: a line of which so much is kept is refused, whatever follows.
const KEPT: usize = 65;

// The bytes of input and of output that there is room for.
const LARGE: usize = 65536;

// The bytes of 64 lines, the most that a script can ask for.
const BYTES: usize = 4096;

// The memory of 800 leaves, the most that a script can ask for.
const MEMORY: usize = 51328;

// Where a script stands: before line 1, or after a line 1 that was refused or accepted, with the number of the last line.
#[derive(Clone, Copy)]
enum Stage {
    Before,
    Refused(u64),
    Accepted(State, u64),
}

// What is kept from chunk to chunk: the stage, how much of the input is filled, whether the output is open; and the buffers.
#[derive(Drop)]
struct Replay {
    from: Stdin,
    to: Stdout,
    stage: Stage,
    filled: usize,
    open: bool,
    input: [u8; LARGE],
    output: [u8; LARGE],
    bytes: [u8; BYTES],
    memory: [u8; MEMORY],
}

// How much of the memory n leaves take: what there is, where that is less (line 1 is then refused).
fn memory_cut(n: u32, memory: &[u8]) -> usize
    ensures { result ≤ length memory.now }
{
    (Geometry::memory_length(n) as usize).min(memory.len())
}

// How much of the line bytes l lines take.
fn bytes_cut(l: usize, bytes: &[u8]) -> usize
    ensures { result ≤ length bytes.now }
{
    (Geometry::BLOCK_LEN * l.min(Geometry::MOST_LINES)).min(bytes.len())
}

// The lines after an accepted line 1, on as much of the bytes and of the memory as the state's shape takes.
fn later(
    state: State,
    number: u64,
    input: &[u8],
    bytes: &mut [u8],
    memory: &mut [u8],
    output: &mut [u8],
) -> Played {
    let b = bytes_cut(state.shape.l, bytes);
    let m = memory_cut(state.shape.n, memory);
    play::play(
        state,
        number,
        input,
        &mut bytes[..b],
        &mut memory[..m],
        output,
    )
}

impl Replay {
    // The output's first bytes go out.
    fn write(&mut self, written: usize) {
        self.open = self
            .to
            .write_all(&self.output[..written.min(LARGE)])
            .is_ok();
    }

    // Line 1, where it ends in the chunk; gives how many bytes are done.
    fn first(&mut self, from: usize, end: usize) -> usize
        requires { (from ≤ end) × (end ≤ 65536) }
    {
        let input = &self.input[from..end];
        let e = play::first_end(input);
        if input.len() <= e {
            return 0;
        }
        let c = script::parse(&input[..e]);
        let (n, l) = match c {
            Some(Command::New(n, l, _)) => (n, l as usize),
            _ => (0, 0),
        };
        let b = bytes_cut(l, &self.bytes);
        let m = memory_cut(n, &self.memory);
        let memory = &mut self.memory[..];
        let o = play::begin(c, &self.bytes[..b], &mut memory[..m]);
        self.stage = if matches!(o.answer, Answer::Accepted) {
            Stage::Accepted(o.state, 1)
        } else {
            Stage::Refused(1)
        };
        let written = text::put_line(&mut self.output, 0, 1, o.answer, o.transfers);
        self.write(written);
        e + 1
    }

    // The lines of a chunk, as many as the output has room for; gives how many bytes are done.
    fn some(&mut self, from: usize, end: usize) -> usize
        requires { (from ≤ end) × (end ≤ 65536) }
    {
        match self.stage {
            Stage::Before => self.first(from, end),
            Stage::Refused(number) => {
                let Replay { input, output, .. } = self;
                let p = play::refuse_all(number, &input[from..end], output);
                self.stage = Stage::Refused(p.number);
                self.write(p.written);
                p.taken
            }
            Stage::Accepted(state, number) => {
                let Replay {
                    input,
                    output,
                    bytes,
                    memory,
                    ..
                } = self;
                let p = later(state, number, &input[from..end], bytes, memory, output);
                self.stage = Stage::Accepted(p.state, p.place.number);
                self.write(p.place.written);
                p.place.taken
            }
        }
    }

    // Every whole line of the input's first `end` bytes, as long as somebody reads the output; gives how many bytes are done.
    fn every(&mut self, end: usize) -> usize
        requires { end ≤ 65536 }
        ensures { result ≤ end }
    {
        let mut from = 0;
        while from < end {
            let taken = self.some(from, end).min(end - from);
            from += taken;
            if taken == 0 || !self.open {
                return from;
            }
        }
        from
    }

    // A last line that has no newline gets one.
    fn last(&mut self, end: usize)
        requires { end ≤ 65536 }
    {
        if 0 < end && end < LARGE {
            self.input[end] = b'\n';
            self.every(end + 1);
        }
    }

    // What is left of a chunk moves to the front; of a line longer than the buffer, its first bytes are enough.
    fn front(&mut self, taken: usize, end: usize)
        requires { (taken ≤ end) × (end ≤ 65536) }
        ensures { self.new.filled ≤ 65536 }
    {
        for i in taken..end {
            self.input[i - taken] = self.input[i];
        }
        let left = end - taken;
        self.filled = if left < LARGE { left } else { KEPT };
    }

    // One read, and every line that is whole then; gives whether there is more to read.
    fn chunk(&mut self) -> bool {
        let at = self.filled.min(LARGE);
        let read = self.from.read(&mut self.input[at..]).unwrap_or(0);
        let end = at + read.min(LARGE - at);
        if end == at {
            self.last(at);
            return false;
        }
        let taken = self.every(end);
        self.front(taken, end);
        self.open
    }
}

// A buffer of N bytes.
fn blank<const N: usize>() -> [u8; N]
    ensures { length result ≡ N }
{
    [0; N]
}

// Chunk after chunk, to the end of the input.
fn main(rt: HostRuntime) {
    let mut replay = Replay {
        from: rt.stdin(),
        to: rt.stdout(),
        stage: Stage::Before,
        filled: 0,
        open: true,
        input: blank(),
        output: blank(),
        bytes: blank(),
        memory: blank(),
    };
    for _ in 0..u64::MAX {
        if !replay.chunk() {
            return;
        }
    }
}
