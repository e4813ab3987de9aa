// A call on a state that is known to be whole, on the one tracker that it names: for those who test a state once and then play many calls on it.
// No public function has a `requires`: every number, tracker and lent row can be anything.
#![tactic(auto)]

ghost use Rattle.std.specs.Prelude.{◌≡◌, ltb, length};
ghost use Rattle.laws.specs.Choice.{pick};
ghost use Rattle.geometry.specs.TagMemory.{most_lines, most_trackers};
ghost use Rattle.placing.specs.Lines.{rows};
ghost use Rattle.outcome.specs.Steps.{OnAnyRows, turned};
ghost use Rattle.turn.specs.Turn.{accepts, issue_turn, step_turn, drain_turn, named, asked_turn};

use geometry::{Geometry, Shape};
use laws::Refusal;
use outcome::Turned;
use tracker::{Access, Answer, Tracker, Transfers};

// What is asked for: a call, or something of another form.
#[derive(Clone, Copy)]
pub enum Asked {
    Other,
    Issue(u64, Access),
    Step(u64),
    Drain,
}

// A call that is accepted.
fn accepts(shape: Shape, tracker: Tracker, transfers: Transfers) -> Turned
    ensures { OnAnyRows (λ q. accepts shape tracker transfers q) result }
{
    Turned {
        shape,
        tracker,
        answer: Answer::Accepted,
        transfers,
    }
}

// Issue to tracker x: 5, 6, 7, 13.
#[tactic(auto, unfolding(crate::specs::Turn::issue_turn, laws::specs::Refusal::unless))]
fn issue(
    shape: Shape,
    x: u64,
    access: Access,
    trackers: &[Tracker; Geometry::MOST_TRACKERS],
    u: Tracker,
) -> Turned
    ensures { OnAnyRows (λ q. issue_turn shape x access trackers.now u q) result }
{
    match whole::can_issue(shape, x, access, trackers) {
        Ok(()) => accepts(shape, Tracker::begin(access), Transfers::none()),
        Err(r) => outcome::refuses(u8::from(r), shape, u),
    }
}

// Step of tracker x, which is u: 5, 8.
#[tactic(auto, unfolding(crate::specs::Turn::step_turn, laws::specs::Refusal::unless))]
fn one_step(
    shape: Shape,
    x: u64,
    trackers: &[Tracker; Geometry::MOST_TRACKERS],
    u: Tracker,
    lines: &mut [u32],
    bytes: &mut [u8],
    memory: &mut [u8],
) -> Turned
    ensures { turned result lines.new bytes.new memory.new ≡ step_turn shape x trackers.now u (rows lines.old bytes.old memory.old) }
{
    match whole::can_step(shape, x, trackers) {
        Ok(()) => step::turn(shape, x as u32, u, lines, bytes, memory),
        Err(r) => outcome::refuses(u8::from(r), shape, u),
    }
}

// Drain, with the sums of its copies: 7.
#[tactic(auto, unfolding(crate::specs::Turn::drain_turn, laws::specs::Refusal::unless))]
fn drain(
    shape: Shape,
    trackers: &[Tracker; Geometry::MOST_TRACKERS],
    u: Tracker,
    lines: &mut [u32],
    bytes: &[u8],
    memory: &mut [u8],
) -> Turned
    ensures { turned result lines.new bytes.now memory.new ≡ drain_turn shape trackers.now u (rows lines.old bytes.now memory.old) }
{
    match whole::can_drain(shape, trackers) {
        Ok(()) => accepts(shape, u, placing::drain(shape, lines, bytes, memory)),
        Err(r) => outcome::refuses(u8::from(r), shape, u),
    }
}

// What is asked for, on the tracker u that it names.
#[tactic(auto, unfolding(crate::specs::Turn::asked_turn))]
pub fn take(
    shape: Shape,
    a: Asked,
    trackers: &[Tracker; Geometry::MOST_TRACKERS],
    u: Tracker,
    lines: &mut [u32],
    bytes: &mut [u8],
    memory: &mut [u8],
) -> Turned
    ensures { turned result lines.new bytes.new memory.new ≡ asked_turn shape a trackers.now u (rows lines.old bytes.old memory.old) }
{
    match a {
        Asked::Other => outcome::refuses(Refusal::OtherForm as u8, shape, u),
        Asked::Issue(x, access) => issue(shape, x, access, trackers, u),
        Asked::Step(x) => one_step(shape, x, trackers, u, lines, bytes, memory),
        Asked::Drain => drain(shape, trackers, u, lines, bytes, memory),
    }
}

// x where it is below t, else 0.
fn below(t: u32, x: u64) -> usize
    ensures { result ≡ pick (ltb x t) x 0 }
{
    if x < u64::from(t) { x as usize } else { 0 }
}

// The tracker, of t, that is named; 0 where none is.
#[tactic(auto, unfolding(crate::specs::Turn::named))]
pub fn named(t: u32, a: Asked) -> usize
    ensures { result ≡ named t a }
{
    match a {
        Asked::Issue(x, _) | Asked::Step(x) => below(t, x),
        Asked::Other | Asked::Drain => 0,
    }
}

// What the type says of an array's length, said in a contract.
pub fn row(a: [u32; Geometry::MOST_LINES]) -> [u32; Geometry::MOST_LINES]
    ensures { (result ≡ a) × (length result ≡ most_lines) }
{
    a
}

pub fn table(a: [Tracker; Geometry::MOST_TRACKERS]) -> [Tracker; Geometry::MOST_TRACKERS]
    ensures { (result ≡ a) × (length result ≡ most_trackers) }
{
    a
}
