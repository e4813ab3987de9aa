// What a step leaves beside the rows, and the ways in which a step ends, goes on, waits or is refused: 01 "One step of a tracker".
// No public function has a `requires`, and none touches the rows: each promise holds of any.
#![tactic(auto)]

ghost use Rattle.tracker.specs.Answer.{says, read, done, same};
ghost use Rattle.rules.specs.Step.{ends, goes, waits, refuses, turns_of};
ghost use Rattle.outcome.specs.Steps.{OnAnyRows};

use geometry::Shape;
use tracker::{Answer, Phase, Tracker, Transfers};

// The shape with its hand, the tracker, the answer, and the transfers that an ending carries.
#[derive(Drop)]
pub struct Turned {
    pub shape: Shape,
    pub tracker: Tracker,
    pub answer: Answer,
    pub transfers: Transfers,
}

// The tracker ends: it is idle, every field zero, and the ending carries its transfers and those of this step.
fn ends(shape: Shape, t: Tracker, more: Transfers, answer: Answer) -> Turned
    ensures { OnAnyRows (λ q. ends (says answer) shape t more q) result }
{
    Turned {
        shape,
        tracker: Tracker::rest(),
        answer,
        transfers: t.transfers.plus(more),
    }
}

// The ending of a read: the group, and one turn more.
// Kept: three functions, of one line each: they differ in the answer that they make.
pub fn ends_read(shape: Shape, t: Tracker, more: Transfers, v: u32) -> Turned
    ensures { OnAnyRows (λ q. ends (read v (turns_of t)) shape t more q) result }
{
    ends(shape, t, more, Answer::Read(v, tracker::one_more(t.turns)))
}

// The ending of a write that put v in, and one turn more.
pub fn ends_done(shape: Shape, t: Tracker, more: Transfers) -> Turned
    ensures { OnAnyRows (λ q. ends (done (turns_of t)) shape t more q) result }
{
    ends(shape, t, more, Answer::Done(tracker::one_more(t.turns)))
}

// The ending of a write whose group equals v, and one turn more.
pub fn ends_same(shape: Shape, t: Tracker, more: Transfers) -> Turned
    ensures { OnAnyRows (λ q. ends (same (turns_of t)) shape t more q) result }
{
    ends(shape, t, more, Answer::Same(tracker::one_more(t.turns)))
}

// The tracker goes on to another phase, with the transfers of this step.
pub fn goes(shape: Shape, t: Tracker, more: Transfers, phase: Phase) -> Turned
    ensures { OnAnyRows (λ q. goes t phase more shape q) result }
{
    Turned {
        shape,
        tracker: t.go_to(phase, more),
        answer: Answer::Moved,
        transfers: Transfers::none(),
    }
}

// Nothing changes but the turn count.
pub fn waits(shape: Shape, t: Tracker) -> Turned
    ensures { OnAnyRows (λ q. waits t shape q) result }
{
    Turned {
        shape,
        tracker: t.count(),
        answer: Answer::Wait,
        transfers: Transfers::none(),
    }
}

// Nothing changes.
// Kept: a number, as an answer carries it; the promise is for every number.
pub fn refuses(c: u8, shape: Shape, t: Tracker) -> Turned
    ensures { OnAnyRows (λ q. refuses c t shape q) result }
{
    Turned {
        shape,
        tracker: t,
        answer: Answer::No(c),
        transfers: Transfers::none(),
    }
}
