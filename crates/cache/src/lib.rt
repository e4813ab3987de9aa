// The cache and its trackers: 01's calls fresh, open, issue, step, drain and show, over a state that goes by value.
// No public function has a `requires`: every number, every field of the state and both lent slices can be anything.
#![tactic(auto)]

ghost use Rattle.std.specs.Prelude.{◌≡◌, List, true, ℕ, ◌+◌, ◌*◌, ◌≤◌, ◌<◌, length, IfOk};
ghost use Rattle.laws.specs.Bytes.{part};
ghost use Rattle.laws.specs.Refusal.{refusal, number, refused_with};
ghost use Rattle.geometry.specs.Shape.{shape_of, top_of};
ghost use Rattle.geometry.specs.TagMemory.{block_place, in_limits_of, most_lines};
ghost use Rattle.rules.specs.State.{begun, zero_state};
ghost use Rattle.rules.specs.Whole.{whole};
ghost use Rattle.rules.specs.Calls.{refused, accepted, open_tests, fresh, opened, issue_no, issue, step_no, step, drain_no, drain, show_no, shown_bit, shown_counts, show};
ghost use Rattle.cache.specs.Seen.{seen, unready, unfit, did};

use geometry::{Geometry, Shape};
use laws::Refusal;
use tracker::{Access, Answer, Tracker, Transfers};

// The shape, with L lines and T trackers: a line is a number (`line`), 0 where it is free; lines L and up, trackers T and up are not used.
#[derive(Clone, Copy)]
pub struct State {
    pub shape: Shape,
    pub lines: [u32; Geometry::MOST_LINES],
    pub trackers: [Tracker; Geometry::MOST_TRACKERS],
}

// The top level of 01's device.
const TOP: u8 = 1;

// What a call hands back: the state, and beside it the answer, and the transfers that an ending or a drain carries.
#[derive(Clone, Copy)]
pub struct Out {
    pub state: State,
    pub answer: Answer,
    pub transfers: Transfers,
}

// Block i of a row of blocks.
fn block_in(row: &[u8], i: usize) -> &[u8]
    requires { 64 * i + 64 ≤ length row.now }
    ensures { result.now ≡ part row.now (block_place i) 64 }
{
    let at = Geometry::BLOCK_LEN * i;
    &row[at..at + Geometry::BLOCK_LEN]
}

impl State {
    // Every line free, every tracker idle.
    fn begin(shape: Shape) -> State
        ensures { seen result ≡ begun shape }
    {
        State {
            shape,
            lines: [0; Geometry::MOST_LINES],
            trackers: [Tracker::rest(); Geometry::MOST_TRACKERS],
        }
    }

    // The call is accepted, and leaves this state.
    fn accept(self) -> Out
        ensures { (bs m : List ℕ) → did result bs m ≡ accepted (seen self) bs m }
    {
        Out {
            state: self,
            answer: Answer::Accepted,
            transfers: Transfers::none(),
        }
    }

    // A refusal: its number and the given state.
    fn refuse(self, r: Refusal) -> Out
        ensures { (bs m : List ℕ) → did result bs m ≡ refused (number r) (seen self) bs m }
    {
        Out {
            state: self,
            answer: Answer::No(u8::from(r)),
            transfers: Transfers::none(),
        }
    }

    // A refusal of fresh or open: its number, and a state that is zero throughout.
    fn none(r: Refusal) -> Out
        ensures { (bs m : List ℕ) → did result bs m ≡ refused (number r) zero_state bs m }
    {
        State::begin(Shape::start(0, 0, 0)).refuse(r)
    }

    // The state is whole; otherwise it is broken.
    pub fn whole(self) -> bool
        ensures { result ≡ whole (seen self) }
    {
        whole::whole(self.shape, &self.lines, &self.trackers)
    }

    // The shape of n leaves, T trackers and L lines; refusals 1 and 2, which come first in fresh and open.
    fn ready(n: u64, t: u64, l: u64, bytes: &[u8], memory: &[u8]) -> Result<Shape, Refusal>
        ensures no { refused_with result ≡ unready n t l bytes.now memory.now }
        ensures shape { IfOk result (λ s. s ≡ shape_of n t l) }
    {
        if !whole::limits(TOP, n, t, l) {
            return Err(Refusal::OutsideLimits);
        }
        let shape = Shape::start(n as u32, t as u32, l as usize);
        if !step::lengths_right(shape, bytes, memory) {
            return Err(Refusal::OtherLength);
        }
        Ok(shape)
    }

    // A fresh memory of n leaves, under T trackers and L lines: refusals 1, 2.
    pub fn fresh(n: u64, t: u64, l: u64, bytes: &[u8], memory: &mut [u8]) -> Out
        ensures { did result bytes.now memory.new ≡ fresh n t l bytes.now memory.old }
    {
        match State::ready(n, t, l, bytes, memory) {
            Ok(shape) => {
                memory::clear_map(shape.n, memory);
                State::begin(shape).accept()
            }
            Err(r) => State::none(r),
        }
    }

    // The same shape, where the memory is true: refusals 1, 2, 3.
    fn can_open(n: u64, t: u64, l: u64, bytes: &[u8], memory: &[u8]) -> Result<Shape, Refusal>
        ensures no { refused_with result ≡ refusal (open_tests (shape_of n t l) bytes.now memory.now) }
        ensures shape { IfOk result (λ s. s ≡ shape_of n t l) }
    {
        let shape = State::ready(n, t, l, bytes, memory)?;
        if !memory::is_true(shape.n, memory) {
            return Err(Refusal::NotTrue);
        }
        Ok(shape)
    }

    // A memory of n leaves as it is, under T trackers and L lines: refusals 1, 2, 3.
    pub fn open(n: u64, t: u64, l: u64, bytes: &[u8], memory: &[u8]) -> Out
        ensures { did result bytes.now memory.now ≡ opened n t l bytes.now memory.now }
    {
        match State::can_open(n, t, l, bytes, memory) {
            Ok(shape) => State::begin(shape).accept(),
            Err(r) => State::none(r),
        }
    }

    // Refusals 4 and 2, which come first in each call on a state.
    #[tactic(auto, unfolding(laws::specs::Refusal::refusal))]
    fn fits(self, bytes: &[u8], memory: &[u8]) -> Result<(), Refusal>
        ensures { refused_with result ≡ unfit (seen self) bytes.now memory.now }
    {
        if !self.whole() {
            return Err(Refusal::BrokenState);
        }
        if !step::lengths_right(self.shape, bytes, memory) {
            return Err(Refusal::OtherLength);
        }
        Ok(())
    }

    // Tracker x is issued an access: refusals 4, 2, 5, 6, 7, 13.
    fn can_issue(self, bytes: &[u8], memory: &[u8], x: u64, access: Access) -> Result<(), Refusal>
        ensures { refused_with result ≡ issue_no (seen self) bytes.now memory.now x access }
    {
        self.fits(bytes, memory)?;
        whole::can_issue(self.shape, x, access, &self.trackers)
    }

    // An access for tracker x: refusals 4, 2, 5, 6, 7, 13.
    pub fn issue(mut self, bytes: &[u8], memory: &[u8], x: u64, access: Access) -> Out
        ensures { did result bytes.now memory.now ≡ issue (seen self) bytes.now memory.now x access }
    {
        if let Err(r) = self.can_issue(bytes, memory, x, access) {
            return self.refuse(r);
        }
        self.trackers[x as usize] = Tracker::begin(access);
        self.accept()
    }

    // Tracker x takes a step: refusals 4, 2, 5, 8.
    fn can_step(self, bytes: &[u8], memory: &[u8], x: u64) -> Result<(), Refusal>
        ensures { refused_with result ≡ step_no (seen self) bytes.now memory.now x }
    {
        self.fits(bytes, memory)?;
        whole::can_step(self.shape, x, &self.trackers)
    }

    // One step of tracker x: refusals 4, 2, 5, 8.
    pub fn step(mut self, bytes: &mut [u8], memory: &mut [u8], x: u64) -> Out
        ensures { did result bytes.new memory.new ≡ step (seen self) bytes.old memory.old x }
    {
        if let Err(r) = self.can_step(bytes, memory, x) {
            return self.refuse(r);
        }
        let k = x as usize;
        let t = self.trackers[k];
        let r = step::turn(self.shape, x as u32, t, &mut self.lines, bytes, memory);
        self.shape = r.shape;
        self.trackers[k] = r.tracker;
        Out {
            state: self,
            answer: r.answer,
            transfers: r.transfers,
        }
    }

    // The lines are drained: refusals 4, 2, 7.
    fn can_drain(self, bytes: &[u8], memory: &[u8]) -> Result<(), Refusal>
        ensures { refused_with result ≡ drain_no (seen self) bytes.now memory.now }
    {
        self.fits(bytes, memory)?;
        whole::can_drain(self.shape, &self.trackers)
    }

    // The changed lines are written to memory, lowest first, and marked clean: refusals 4, 2, 7.
    pub fn drain(mut self, bytes: &[u8], memory: &mut [u8]) -> Out
        ensures { did result bytes.now memory.new ≡ drain (seen self) bytes.now memory.old }
    {
        if let Err(r) = self.can_drain(bytes, memory) {
            return self.refuse(r);
        }
        let transfers = placing::drain(self.shape, &mut self.lines, bytes, memory);
        Out {
            transfers,
            ..self.accept()
        }
    }

    // Leaf k is shown: refusals 4, 2, 6, 7.
    pub fn can_show(self, bytes: &[u8], memory: &[u8], k: u64) -> Result<(), Refusal>
        ensures { refused_with result ≡ show_no (seen self) bytes.now memory.now k }
    {
        self.fits(bytes, memory)?;
        whole::can_show(self.shape, k, &self.trackers)
    }

    // The bit over block k of level e, read in the line of the block that has it if there is one.
    #[tactic(auto, unfolding(rules::specs::Calls::shown_bit))]
    fn shown_bit(self, bytes: &[u8], memory: &[u8], e: u8, k: u32) -> u8
        requires { (in_limits_of (top_of self.shape) self.shape.n ≡ true) × (e < top_of self.shape) × (self.shape.l ≤ most_lines) }
        ensures { result ≡ shown_bit (seen self) bytes.now memory.now e k }
    {
        let above = Geometry::blocks_of(e, self.shape.n) + u64::from(Geometry::map_block_of(k));
        let j = line::line_of(&self.lines, self.shape.l, above as u32);
        if j < self.shape.l {
            return block::bit_at(
                bytes,
                Geometry::BLOCK_LEN * j + Geometry::map_byte_of(k),
                Geometry::map_bit_of(k),
            );
        }
        memory::bit_over(e, self.shape.n, memory, k)
    }

    // Leaf k counts by the bits that are shown, each from the one over it to the top's.
    fn shown_counts(self, bytes: &[u8], memory: &[u8], k: u32) -> bool
        requires { (in_limits_of (top_of self.shape) self.shape.n ≡ true) × (self.shape.l ≤ most_lines) }
        ensures { result ≡ shown_counts (seen self) bytes.now memory.now (top_of self.shape) 0 k }
    {
        let mut i = k;
        for e in 0..self.shape.top() {
            if self.shown_bit(bytes, memory, e, i) != 1 {
                return false;
            }
            i = Geometry::map_block_of(i);
        }
        true
    }

    // Leaf k: the 64 bytes in its line; else, under bit 1, those in memory; under bit 0, and refused, an empty part of memory.
    pub fn show<'a>(self, bytes: &'a [u8], memory: &'a [u8], k: u64) -> &'a [u8]
        ensures { result.now ≡ show (seen self) bytes.now memory.now k }
    {
        if self.can_show(bytes, memory, k).is_err() {
            return &memory[..0];
        }
        let leaf = k as u32;
        let i = line::line_of(&self.lines, self.shape.l, leaf);
        if i < self.shape.l {
            return block_in(bytes, i);
        }
        if self.shown_counts(bytes, memory, leaf) {
            return block_in(memory, leaf as usize);
        }
        &memory[..0]
    }
}
