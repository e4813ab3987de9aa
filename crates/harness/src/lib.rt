// The calls of a licensee's harness: the state is lent as words, and each call answers nothing, or what its comment says, or its refusal.
// No public function has a `requires`: words, bytes and numbers can be anything. Refused, nothing changes but the words of a refused fresh or open.
#![tactic(auto)]

ghost use Rattle.std.specs.Prelude.{◌≡◌, ◌<◌, ◌-◌, eqb, ltb, length, IfOk, slice_index};
ghost use Rattle.laws.specs.Choice.{pick};
ghost use Rattle.laws.specs.Refusal.{number, refused_with, given, given_done, refusal};
ghost use Rattle.laws.specs.declared.Refusal.{Refusal};
ghost use Rattle.geometry.specs.TagMemory.{values};
ghost use Rattle.tracker.specs.Answer.{says};
ghost use Rattle.rules.specs.Calls.{show_no};
ghost use Rattle.cache.specs.Seen.{seen};
ghost use Rattle.coding.specs.Words.{state_words, coded, decoded};
ghost use Rattle.coding.specs.Answer.{number_of};
ghost use Rattle.harness.specs.Calls.{done, begin_tests, word_tests, tag_fresh, tag_open, access_of, tag_issue, tag_drain, tag_step, shown_at, tag_show, tag_show_no, tag_whole, given_whether};
ghost use Rattle.harness.specs.Told.{Told};

use cache::{Out, State};
use geometry::Geometry;
use laws::Refusal;
use tracker::{Access, Answer};

// The largest number of a group that an access can carry.
const MOST_GROUP: u64 = u32::MAX as u64;

// A leaf that is shown in memory has its place there plus this and one.
const IN_MEMORY: u64 = 1 << 40;

// n, T and L of a device, where the words of the state are as many as a state has: refusal 2.
fn device_in(device: &[u64], state: &[u64]) -> Result<(u64, u64, u64), Refusal>
    ensures refusals { refused_with result ≡ refusal (begin_tests device.now state.now) }
    ensures device { IfOk result (λ d. (d.0 ≡ slice_index device.now 0) × (d.1 ≡ slice_index device.now 1) × (d.2 ≡ slice_index device.now 2)) }
{
    match device {
        &[n, t, l] if state.len() == coding::STATE_WORDS => Ok((n, t, l)),
        _ => Err(Refusal::OtherLength),
    }
}

// The state that lent words code: refusals 2, 4.
fn state_in(words: &[u64]) -> Result<State, Refusal>
    ensures refusals { refused_with result ≡ refusal (word_tests words.now) }
    ensures state { IfOk result (λ s. seen s ≡ decoded words.now) }
{
    if words.len() != coding::STATE_WORDS {
        return Err(Refusal::OtherLength);
    }
    coding::decode(words).ok_or(Refusal::BrokenState)
}

// The refusal that has a number.
// Kept: from a number, since an answer carries it (tracker `Answer::No`).
fn refusal_of(c: u8) -> Refusal
    requires { (r : Refusal) × (number r ≡ c) }
    ensures { number result ≡ c }
{
    match c {
        1 => Refusal::OutsideLimits,
        2 => Refusal::OtherLength,
        3 => Refusal::NotTrue,
        4 => Refusal::BrokenState,
        5 => Refusal::NoTracker,
        6 => Refusal::NoGroup,
        7 => Refusal::BusyTracker,
        8 => Refusal::IdleTracker,
        9 => Refusal::NoRoom,
        10 => Refusal::WrongCheck,
        11 => Refusal::OtherRule,
        12 => Refusal::OtherForm,
        13 => Refusal::SharedGroup,
        _ => Refusal::OtherRun,
    }
}

// The refusal of a call, if it is refused.
fn told(answer: Answer) -> Result<(), Refusal>
    requires { Told (says answer) }
    ensures { given_done result ≡ number_of (says answer) }
{
    match answer {
        Answer::No(c) => Err(refusal_of(c)),
        _ => Ok(()),
    }
}

// The words of the state that a call hands back, and its refusal, if it is refused.
fn leave(r: Out, state: &mut [u64]) -> Result<(), Refusal>
    requires { Told (says r.answer) }
    ensures { (given_done result ≡ number_of (says r.answer)) × (state.new ≡ pick (eqb (length state.old) state_words) (coded (seen r.state)) state.old) }
{
    coding::encode(r.state, state);
    told(r.answer)
}

// A fresh memory under the device, n, T and L: refusals 2, then 1, 2.
pub fn fresh(
    device: &[u64],
    state: &mut [u64],
    bytes: &[u8],
    memory: &mut [u8],
) -> Result<(), Refusal>
    ensures { done (given_done result) state.new bytes.now memory.new ≡ tag_fresh device.now state.old bytes.now memory.old }
{
    let (n, t, l) = device_in(device, state)?;
    let r = State::fresh(n, t, l, bytes, memory);
    leave(r, state)
}

// A memory as it is, under the device, n, T and L: refusals 2, then 1, 2, 3.
pub fn open(device: &[u64], state: &mut [u64], bytes: &[u8], memory: &[u8]) -> Result<(), Refusal>
    ensures { done (given_done result) state.new bytes.now memory.now ≡ tag_open device.now state.old bytes.now memory.now }
{
    let (n, t, l) = device_in(device, state)?;
    let r = State::open(n, t, l, bytes, memory);
    leave(r, state)
}

// Kept: `write`, `bottom` and `g` are numbers of 64 bits, as C hands them over (`tag_issue`); state, line bytes and memory are lent apart, as C lends them.
// The access that the numbers say. A group too large for it becomes the largest, which no memory has either.
pub fn access_of(write: u64, bottom: u64, g: u64, v: u32) -> Access
    ensures { result ≡ access_of write bottom (pick (ltb g values) g (values - 1)) v }
{
    Access {
        write: 0 < write,
        bottom: 0 < bottom,
        group: g.min(MOST_GROUP) as u32,
        value: v,
    }
}

// An access for tracker x: refusals 2, 4, then those of an issue.
pub fn issue(
    state: &mut [u64],
    bytes: &[u8],
    memory: &[u8],
    x: u64,
    write: u64,
    bottom: u64,
    g: u64,
    v: u32,
) -> Result<(), Refusal>
    ensures { done (given_done result) state.new bytes.now memory.now ≡ tag_issue state.old bytes.now memory.now x (access_of write bottom g v) }
{
    let s = state_in(state)?;
    let r = s.issue(bytes, memory, x, access_of(write, bottom, g, v));
    leave(r, state)
}

// One step of tracker x, with its answer's words: refusals 2, 4, then those of a step.
pub fn step(
    state: &mut [u64],
    bytes: &mut [u8],
    memory: &mut [u8],
    x: u64,
    answer: &mut [u64],
) -> Result<(), Refusal>
    ensures { (done (given_done result) state.new bytes.new memory.new, answer.new) ≡ tag_step state.old bytes.old memory.old x answer.old }
{
    if answer.len() != coding::ANSWER_WORDS {
        return Err(Refusal::OtherLength);
    }
    let s = state_in(state)?;
    let r = s.step(bytes, memory, x);
    coding::put_answer(r.answer, r.transfers, answer);
    leave(r, state)
}

// The changed lines are written to memory and marked clean; the blocks written back: refusals 2, 4, then those of a drain.
pub fn drain(state: &mut [u64], bytes: &[u8], memory: &mut [u8]) -> Result<u64, Refusal>
    ensures told { done (given result) state.new bytes.now memory.new ≡ tag_drain state.old bytes.now memory.old }
    ensures fits { IfOk result (λ v. v < 4294967296) }
{
    let s = state_in(state)?;
    let r = s.drain(bytes, memory);
    leave(r, state)?;
    Ok(u64::from(r.transfers.back))
}

// Where a state shows leaf k, which it is not refused to show.
fn place_of<'a>(s: State, bytes: &'a [u8], memory: &'a [u8], k: u64) -> u64
    requires { show_no (seen s) bytes.now memory.now k ≡ 0 }
    ensures { result ≡ shown_at (seen s) bytes.now memory.now k }
{
    let l = s.shape.l;
    let i = line::line_of(&s.lines, l, k as u32);
    if i < l {
        return 1 + (Geometry::BLOCK_LEN * i) as u64;
    }
    if s.show(bytes, memory, k).is_empty() {
        return 0;
    }
    IN_MEMORY + (1 + Geometry::BLOCK_LEN as u64 * k)
}

// Where a state shows leaf k.
fn shown_at<'a>(s: State, bytes: &'a [u8], memory: &'a [u8], k: u64) -> Result<u64, Refusal>
    ensures told { given result ≡ shown_at (seen s) bytes.now memory.now k }
    ensures refused { refused_with result ≡ show_no (seen s) bytes.now memory.now k }
{
    s.can_show(bytes, memory, k)?;
    Ok(place_of(s, bytes, memory, k))
}

// Where leaf k is shown: 0 for an empty part, else 1 plus its place in the line bytes, or IN_MEMORY plus 1 plus its place in memory. Refusals 2, 4, then those of showing.
pub fn show<'a>(state: &[u64], bytes: &'a [u8], memory: &'a [u8], k: u64) -> Result<u64, Refusal>
    ensures told { given result ≡ tag_show state.now bytes.now memory.now k }
    ensures refused { refused_with result ≡ tag_show_no state.now bytes.now memory.now k }
{
    shown_at(state_in(state)?, bytes, memory, k)
}

// The state is whole. Refusal 2.
pub fn whole(state: &[u64]) -> Result<bool, Refusal>
    ensures { given_whether result ≡ tag_whole state.now }
{
    if state.len() != coding::STATE_WORDS {
        return Err(Refusal::OtherLength);
    }
    Ok(coding::decode(state).is_some_and(|s| s.whole()))
}
