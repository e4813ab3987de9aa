// A run of calls of a licensee's harness: calls lent as words are played one after another on a state that is tested once, and each has its answer's words.
// No public function has a `requires`: words and bytes can be anything. Refused, nothing changes.
#![tactic(auto)]

ghost use Rattle.std.specs.Prelude.{◌≡◌, true, ◌+◌, ◌*◌, ◌≤◌, length};
ghost use Rattle.laws.specs.Refusal.{given_done};
ghost use Rattle.laws.specs.Bytes.{splice};
ghost use Rattle.tracker.specs.Answer.{says};
ghost use Rattle.rules.specs.State.{lengths_right};
ghost use Rattle.rules.specs.Whole.{whole};
ghost use Rattle.rules.specs.Run.{Kept};
ghost use Rattle.turn.specs.Turn.{takes};
ghost use Rattle.cache.specs.Seen.{seen};
ghost use Rattle.coding.specs.Answer.{answer_words, said_coded};
ghost use Rattle.harness.specs.Calls.{done};
ghost use Rattle.running.specs.Run.{call_words, calls_in, lengths_fit, asked_in, ran, tag_run};
ghost use Rattle.running.specs.Seen.{kept, left};

use cache::State;
use laws::Refusal;
use tracker::{Answer, Transfers};
use turn::Asked;

// The words of a call.
pub const CALL_WORDS: usize = 6;

// What a call is.
// Kept: the numbers are those of C (TAG_ISSUE, TAG_STEP, TAG_DRAIN of `include/tag_model.h`).
const ISSUE: u64 = 1;

const STEP: u64 = 2;

const DRAIN: u64 = 3;

// The largest value that an access can carry.
const MOST_VALUE: u64 = u32::MAX as u64;

// What the words from `at` on ask for.
fn asked_in(calls: &[u64], at: usize) -> Asked
    requires { at + call_words ≤ length calls.now }
    ensures { (k : Kept) → takes k result ≡ takes k (asked_in calls.now at) }
{
    let x = calls[at + 1];
    let v = calls[at + 5];
    match calls[at] {
        ISSUE if v <= MOST_VALUE => Asked::Issue(
            x,
            harness::access_of(calls[at + 2], calls[at + 3], calls[at + 4], v as u32),
        ),
        STEP => Asked::Step(x),
        DRAIN => Asked::Drain,
        _ => Asked::Other,
    }
}

// An answer's words, from `at` on.
fn put_at(answers: &mut [u64], at: usize, answer: Answer, t: Transfers)
    requires { at + answer_words ≤ length answers.old }
    ensures { answers.new ≡ splice answers.old at (said_coded (says answer) t) }
{
    coding::put_said(answer, t, &mut answers[at..at + coding::ANSWER_WORDS]);
}

// The calls, one after another: the rows are copied out of the state once, and lent to each call.
fn run_calls(
    state: State,
    bytes: &mut [u8],
    memory: &mut [u8],
    calls: &[u64],
    answers: &mut [u64],
) -> State
    requires { (whole (seen state) ≡ true) × (lengths_right state.shape bytes.old memory.old ≡ true) × (length answers.old ≡ answer_words * calls_in calls.now) }
    ensures { left result bytes.new memory.new answers.new ≡ ran (kept state bytes.old memory.old) calls.now answers.old (calls_in calls.now) }
{
    let mut shape = state.shape;
    let mut lines = turn::row(state.lines);
    let mut trackers = turn::table(state.trackers);
    for i in 0..calls.len() / CALL_WORDS {
        let a = asked_in(calls, CALL_WORDS * i);
        let x = turn::named(shape.t, a);
        let r = turn::take(shape, a, &trackers, trackers[x], &mut lines, bytes, memory);
        shape = r.shape;
        trackers[x] = r.tracker;
        put_at(answers, coding::ANSWER_WORDS * i, r.answer, r.transfers);
    }
    State {
        shape,
        lines,
        trackers,
    }
}

// The numbers of words are those of a state, of calls, and of as many answers.
#[tactic(auto, unfolding(laws::specs::Choice::both))]
fn lengths_fit(state: &[u64], calls: &[u64], answers: &[u64]) -> bool
    ensures { result ≡ lengths_fit state.now calls.now answers.now }
{
    let n = calls.len() / CALL_WORDS;
    state.len() == coding::STATE_WORDS
        && calls.len() == CALL_WORDS * n
        && answers.len() == coding::ANSWER_WORDS * n
}

// Calls played one after another, each with its answer's words: refusals 2, 4, then 4, 2 of the state.
pub fn run(
    state: &mut [u64],
    bytes: &mut [u8],
    memory: &mut [u8],
    calls: &[u64],
    answers: &mut [u64],
) -> Result<(), Refusal>
    ensures { (done (given_done result) state.new bytes.new memory.new, answers.new) ≡ tag_run state.old bytes.old memory.old calls.now answers.old }
{
    if !lengths_fit(state, calls, answers) {
        return Err(Refusal::OtherLength);
    }
    let Some(s) = coding::decode(state) else {
        return Err(Refusal::BrokenState);
    };
    if !s.whole() {
        return Err(Refusal::BrokenState);
    }
    if !step::lengths_right(s.shape, bytes, memory) {
        return Err(Refusal::OtherLength);
    }
    let after = run_calls(s, bytes, memory, calls, answers);
    coding::encode(after, state);
    Ok(())
}
