// A state as 64-bit words, for a caller that lends it: its coding, the state that words code, and a call's answer as words.
// No public function has a `requires`: words can be anything, and as many as a caller likes.
#![tactic(auto)]

ghost use Rattle.std.specs.Prelude.{◌≡◌, true, suc, ◌+◌, ◌*◌, ◌≤◌, ◌<◌, eqb, length};
ghost use Rattle.laws.specs.Choice.{pick};
ghost use Rattle.laws.specs.Scan.{all};
ghost use Rattle.laws.specs.Bytes.{part, splice};
ghost use Rattle.geometry.specs.TagMemory.{most_lines, most_trackers};
ghost use Rattle.tracker.specs.Answer.{says};
ghost use Rattle.rules.specs.State.{zero_state};
ghost use Rattle.cache.specs.Seen.{seen};
ghost use Rattle.coding.specs.Words.{tracker_words, lines_place, tracker_place, state_words, most_level, phase_number, codes_phase, tracker_coded, trackers_coded, shape_coded, coded, phase_of, tracker_in, trackers_to, shape_in, decoded, codes_tracker, codes_line, codes};
ghost use Rattle.coding.specs.Seen.{is_coded, coded_state};
ghost use Rattle.coding.specs.Answer.{number_of, answer_words, answer_of, said_coded, answer_coded};

use cache::State;
use geometry::{Geometry, Shape};
use tracker::{Answer, Phase, Tracker, Transfers};

// The words of a tracker.
pub const TRACKER_WORDS: usize = 8;

// Where the lines begin, and the trackers.
const LINES: usize = 4;

const TRACKERS: usize = LINES + Geometry::MOST_LINES;

// The words of a state.
pub const STATE_WORDS: usize = TRACKERS + TRACKER_WORDS * Geometry::MOST_TRACKERS;

// The words of a step's answer.
pub const ANSWER_WORDS: usize = 6;

// What a refused call gives is this and the refusal.
pub use laws::REFUSED;

// A field of a state that has 32 bits is below this, one that has 16, and one that has 8.
const BITS_32: u64 = 1 << u32::BITS;

const BITS_16: u64 = 1 << u16::BITS;

const BITS_8: u64 = 1 << u8::BITS;

// The phases without their level, of which there is room for eight.
const PHASES: u64 = 8;

// The number of a phase: which it is, and eight times its level.
// Kept: the numbers are those of C (a tracker's first word, `include/tag_model.h`), of which tracker, where a `From` would stand, knows nothing.
fn phase_number(phase: Phase) -> u64
    ensures { result ≡ phase_number phase }
{
    match phase {
        Phase::Idle => 0,
        Phase::Probe(d) => 1 + PHASES * u64::from(d),
        Phase::Top => 2,
        Phase::Under(d) => 3 + PHASES * u64::from(d),
        Phase::Set(d) => 4 + PHASES * u64::from(d),
        Phase::Clear(d) => 5 + PHASES * u64::from(d),
    }
}

// The phase that has a number.
#[tactic(auto, unfolding(crate::specs::Words::phase_of))]
fn phase_of(k: u64) -> Phase
    requires { k < 8 * suc most_level }
    ensures { result ≡ phase_of k }
{
    let level = (k / PHASES) as u8;
    match k % PHASES {
        1 => Phase::Probe(level),
        2 => Phase::Top,
        3 => Phase::Under(level),
        4 => Phase::Set(level),
        5 => Phase::Clear(level),
        _ => Phase::Idle,
    }
}

// A word is a phase's number.
#[tactic(auto, unfolding(crate::specs::Words::codes_phase, laws::specs::Choice::both))]
fn codes_phase(k: u64) -> bool
    ensures { result ≡ codes_phase k }
{
    k < PHASES * BITS_8 && phase_number(phase_of(k)) == k
}

// The first word from `at` on is a phase's, and none is too wide for its field of a tracker.
#[tactic(auto, unfolding(crate::specs::Words::codes_tracker, laws::specs::Choice::both))]
fn codes_tracker(words: &[u64], at: usize) -> bool
    requires { at + tracker_words ≤ length words.now }
    ensures { result ≡ codes_tracker words.now at }
{
    codes_phase(words[at])
        && words[at + 1] < 2
        && words[at + 2] < 2
        && words[at + 3] < BITS_32
        && words[at + 4] < BITS_32
        && words[at + 5] < BITS_16
        && words[at + 6] < BITS_8
        && words[at + 7] < BITS_8
}

// None of the lines' words is too wide for a line.
fn codes_lines(words: &[u64]) -> bool
    requires { length words.now ≡ state_words }
    ensures { result ≡ all (codes_line words.now) most_lines }
{
    words[LINES..TRACKERS].iter().all(|w| *w < BITS_32)
}

// None of the trackers' words is too wide for its field.
fn codes_trackers(words: &[u64]) -> bool
    requires { length words.now ≡ state_words }
    ensures { result ≡ all (λ x. codes_tracker words.now (tracker_place x)) most_trackers }
{
    for x in 0..Geometry::MOST_TRACKERS {
        if !codes_tracker(words, TRACKERS + TRACKER_WORDS * x) {
            return false;
        }
    }
    true
}

// The words code a state.
#[tactic(auto, unfolding(crate::specs::Words::codes, laws::specs::Choice::both))]
pub fn codes(words: &[u64]) -> bool
    ensures { result ≡ codes words.now }
{
    words.len() == STATE_WORDS
        && words[0] < BITS_32
        && words[1] < BITS_32
        && codes_lines(words)
        && codes_trackers(words)
}

// The tracker that the words from `at` on code.
fn tracker_in(words: &[u64], at: usize) -> Tracker
    requires { (at + tracker_words ≤ length words.now) × (codes_tracker words.now at ≡ true) }
    ensures { result ≡ tracker_in words.now at }
{
    Tracker {
        phase: phase_of(words[at]),
        write: words[at + 1] == 1,
        bottom: words[at + 2] == 1,
        group: words[at + 3] as u32,
        value: words[at + 4] as u32,
        turns: words[at + 5] as u16,
        transfers: Transfers {
            fetched: words[at + 6] as u8,
            back: words[at + 7] as u8,
        },
    }
}

// The lines.
fn lines_in(words: &[u64]) -> [u32; Geometry::MOST_LINES]
    requires { codes words.now ≡ true }
    ensures { result ≡ part words.now lines_place most_lines }
{
    let mut lines = [0; Geometry::MOST_LINES];
    for (i, line) in lines.iter_mut().enumerate() {
        *line = words[LINES + i] as u32;
    }
    lines
}

// The trackers.
fn trackers_in(words: &[u64]) -> [Tracker; Geometry::MOST_TRACKERS]
    requires { codes words.now ≡ true }
    ensures { result ≡ trackers_to words.now most_trackers }
{
    let mut trackers = [Tracker::rest(); Geometry::MOST_TRACKERS];
    for (x, tracker) in trackers.iter_mut().enumerate() {
        *tracker = tracker_in(words, TRACKERS + TRACKER_WORDS * x);
    }
    trackers
}

// The shape that words code.
fn shape_in(words: &[u64]) -> Shape
    requires { codes words.now ≡ true }
    ensures { result ≡ shape_in words.now }
{
    Shape {
        n: words[0] as u32,
        t: words[1] as u32,
        l: words[2] as usize,
        hand: words[3] as usize,
    }
}

// The state that words code.
#[tactic(auto, unfolding(crate::specs::Words::decoded))]
fn state_in(words: &[u64]) -> State
    requires { codes words.now ≡ true }
    ensures { seen result ≡ decoded words.now }
{
    State {
        shape: shape_in(words),
        lines: lines_in(words),
        trackers: trackers_in(words),
    }
}

// The state that words code, if they code one.
pub fn decode(words: &[u64]) -> Option<State>
    ensures { (is_coded result ≡ codes words.now) × (coded_state result ≡ pick (codes words.now) (decoded words.now) zero_state) }
{
    if codes(words) {
        Some(state_in(words))
    } else {
        None
    }
}

// n, T, L and the hand.
#[tactic(auto, unfolding(laws::specs::Bytes::splice))]
fn put_shape(words: &mut [u64], shape: Shape)
    requires { lines_place ≤ length words.old }
    ensures { words.new ≡ splice words.old 0 (shape_coded shape) }
{
    words[..LINES].copy_from_slice(&[
        u64::from(shape.n),
        u64::from(shape.t),
        shape.l as u64,
        shape.hand as u64,
    ]);
}

// The lines.
fn put_lines(words: &mut [u64], lines: [u32; Geometry::MOST_LINES])
    requires { length words.old ≡ state_words }
    ensures { words.new ≡ splice words.old lines_place lines }
{
    for (i, line) in lines.iter().enumerate() {
        words[LINES + i] = u64::from(*line);
    }
}

// A tracker's words, from `at` on.
#[tactic(auto, unfolding(laws::specs::Bytes::splice, crate::specs::Words::tracker_coded))]
fn put_tracker(words: &mut [u64], at: usize, tracker: Tracker)
    requires { at + tracker_words ≤ length words.old }
    ensures { words.new ≡ splice words.old at (tracker_coded tracker) }
{
    words[at..at + TRACKER_WORDS].copy_from_slice(&[
        phase_number(tracker.phase),
        u64::from(tracker.write),
        u64::from(tracker.bottom),
        u64::from(tracker.group),
        u64::from(tracker.value),
        u64::from(tracker.turns),
        u64::from(tracker.transfers.fetched),
        u64::from(tracker.transfers.back),
    ]);
}

// The trackers, of which there are eight.
fn put_trackers(words: &mut [u64], trackers: [Tracker; Geometry::MOST_TRACKERS])
    requires { length words.old ≡ state_words }
    ensures { (words.new ≡ splice words.old (tracker_place 0) (trackers_coded trackers)) × (length trackers ≡ most_trackers) }
{
    for (x, tracker) in trackers.iter().enumerate() {
        put_tracker(words, TRACKERS + TRACKER_WORDS * x, *tracker);
    }
}

// The words become the coding of a state, where there are as many as a state has; else they stay as they came.
pub fn encode(state: State, words: &mut [u64])
    ensures { words.new ≡ pick (eqb (length words.old) state_words) (coded (seen state)) words.old }
{
    if words.len() != STATE_WORDS {
        return;
    }
    put_shape(words, state.shape);
    put_lines(words, state.lines);
    put_trackers(words, state.trackers);
}

// The number that a call gives: 0, or REFUSED plus the refusal.
pub fn number_of(answer: Answer) -> u64
    ensures { result ≡ number_of (says answer) }
{
    match answer {
        Answer::No(c) => REFUSED + u64::from(c),
        _ => 0,
    }
}

// The words of an answer.
fn put_words(words: &mut [u64], said: u64, v: u32, k: u16, t: Transfers)
    requires { length words.old ≡ answer_words }
    ensures { words.new ≡ answer_of said v k t }
{
    words.copy_from_slice(&[
        said,
        u64::from(v),
        u64::from(k),
        u64::from(t.fetched),
        u64::from(t.back),
        0,
    ]);
}

// The words become those of what was said, where there are as many as an answer has; else they stay as they came.
// Kept: the numbers of what was said are those of C (TAG_WAIT to TAG_SAME of `include/tag_model.h`).
pub fn put_said(answer: Answer, t: Transfers, words: &mut [u64])
    ensures { words.new ≡ pick (eqb (length words.old) answer_words) (said_coded (says answer) t) words.old }
{
    if words.len() != ANSWER_WORDS {
        return;
    }
    match answer {
        Answer::Accepted => put_words(words, 0, 0, 0, t),
        Answer::Wait => put_words(words, 1, 0, 0, t),
        Answer::Moved => put_words(words, 2, 0, 0, t),
        Answer::Read(v, k) => put_words(words, 3, v, k, t),
        Answer::Done(k) => put_words(words, 4, 0, k, t),
        Answer::Same(k) => put_words(words, 5, 0, k, t),
        Answer::No(c) => put_words(words, REFUSED + u64::from(c), 0, 0, t),
    }
}

// The words become those of a step's answer, where there are as many as an answer has; refused, and else, they stay as they came.
pub fn put_answer(answer: Answer, t: Transfers, words: &mut [u64])
    ensures { words.new ≡ pick (eqb (length words.old) answer_words) (answer_coded (says answer) t words.old) words.old }
{
    if number_of(answer) == 0 {
        put_said(answer, t, words);
    }
}
