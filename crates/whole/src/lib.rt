// 01 "What is refused": whether a state is whole, part by part, on lent lines and a table of trackers; and the refusals of issue, step, drain and show that come after 4 and 2.
// No public function has a `requires`; the parts of the whole test that come after the limits may rely on them.
#![tactic(auto)]

ghost use Rattle.std.specs.Prelude.{◌≡◌, true, suc, ◌<◌, ◌≤◌, leb, length, get_or};
ghost use Rattle.laws.specs.Choice.{implies, no};
ghost use Rattle.laws.specs.Refusal.{refusal, refused_with};
ghost use Rattle.laws.specs.Scan.{all};
ghost use Rattle.geometry.specs.Shape.{top_of};
ghost use Rattle.geometry.specs.TagMemory.{groups, most_trackers};
ghost use Rattle.tracker.specs.Tracker.{is_idle};
ghost use Rattle.line.specs.Word.{used};
ghost use Rattle.rules.specs.State.{tracker_at};
ghost use Rattle.rules.specs.Whole.{limits, keeps, line_whole, phase_whole, level_whole, tracker_whole, whole};
ghost use Rattle.rules.specs.Calls.{meets, meets_none, issue_tests, step_tests, drain_tests, show_tests};
ghost use Rattle.whole.specs.Parts.{state_of, limits_of, holder_whole};

use geometry::{Geometry, Shape};
use laws::Refusal;
use tracker::{Access, Phase, Tracker};

// The top level, n, T and L are in the limits.
#[tactic(auto, unfolding(crate::specs::Parts::limits_of, laws::specs::Choice::both))]
pub fn limits(top: u8, n: u64, t: u64, l: u64) -> bool
    ensures { result ≡ limits_of top n t l }
{
    Geometry::in_limits_of(top, n)
        && 1 <= t
        && t <= Geometry::MOST_TRACKERS as u64
        && u64::from(top) * t < l
        && l <= Geometry::MOST_LINES as u64
}

// A tracker keeps block b, of the levels up to this top, over n leaves.
fn keeps(top: u8, n: u32, t: Tracker, b: u32) -> bool
    ensures { result ≡ keeps top n t b }
{
    (0..top).any(|d| {
        t.phase.keeps_at(d + 1) && Geometry::block_over(d + 1, n, t.group) == u64::from(b)
    })
}

// A tracker at Probe is bottom-up and one at Finish is a write; a phase is of a level below the top.
#[tactic(auto, unfolding(laws::specs::Choice::both))]
fn phase_whole(top: u8, phase: Phase, write: bool, bottom: bool) -> bool
    ensures { result ≡ phase_whole top write bottom phase }
{
    match phase {
        Phase::Idle | Phase::Top => true,
        Phase::Probe(d) => bottom && d < top,
        Phase::Under(d) => d < top,
        Phase::Set(d) | Phase::Clear(d) => write && d < top,
    }
}

// A state by its parts, in the limits, whose row and table have the L lines and the T trackers.
#[derive(Clone, Copy)]
struct Parts<'a> {
    shape: Shape,
    lines: &'a [u32],
    trackers: &'a [Tracker],
    ghost in_limits: { limits shape ≡ true },
    ghost lined: { shape.l ≤ length lines.now },
    ghost tracked: { shape.t ≤ length trackers.now },
}

impl Parts<'_> {
    ghost use Rattle.whole.specs.Seen.{seen};

    // A line that names a holder names one of the T trackers, and it keeps the line's block.
    #[tactic(auto, unfolding(crate::specs::Parts::holder_whole, line::specs::Word::held, laws::specs::Choice::implies, laws::specs::Choice::both))]
    fn holder_whole(&self, w: u32) -> bool
        ensures { result ≡ holder_whole self.now.shape self.now.trackers.now w }
    {
        let h = line::holder(w);
        if h == 0 {
            return true;
        }
        h <= self.shape.t
            && keeps(
                self.shape.top(),
                self.shape.n,
                self.trackers[(h - 1) as usize],
                line::block_of(w),
            )
    }

    // Line i, which the row has: its block exists and has no other line, and its holder keeps it.
    #[tactic(auto, unfolding(rules::specs::Whole::line_whole, crate::specs::Parts::holder_whole, line::specs::Word::used, laws::specs::Choice::implies, laws::specs::Choice::both))]
    fn line_whole(&self, i: usize) -> bool
        requires { i < length self.now.lines.now }
        ensures { result ≡ line_whole (seen self.now) i }
    {
        let w = self.lines[i];
        if w == 0 {
            return true;
        }
        let b = line::block_of(w);
        u64::from(b) < Geometry::blocks_of(self.shape.top(), self.shape.n)
            && line::line_of(self.lines, self.shape.l, b) == i
            && self.holder_whole(w)
    }

    // Each of the L lines.
    fn lines_whole(&self) -> bool
        ensures { result ≡ all (line_whole (seen self.now)) self.now.shape.l }
    {
        (0..self.shape.l).all(|i| self.line_whole(i))
    }

    // Tracker x, which is t, and its block of level e: it is in one of L lines if a state must have it there, and a line that the tracker keeps names it.
    #[tactic(auto, unfolding(rules::specs::Whole::level_whole, laws::specs::Choice::both, laws::specs::Choice::implies))]
    fn level_whole(&self, t: Tracker, x: usize, e: u8) -> bool
        requires { (t.group < groups self.now.shape.n) × (e ≤ top_of self.now.shape) × (x < length self.now.trackers.now) }
        ensures { result ≡ level_whole (seen self.now) x t e }
    {
        if !t.phase.keeps_at(e) {
            return true;
        }
        let b = Geometry::block_over(e, self.shape.n, t.group) as u32;
        let i = line::line_of(self.lines, self.shape.l, b);
        if i < self.shape.l {
            line::holder(self.lines[i]) as usize == x + 1
        } else {
            !t.phase.asks_at(e)
        }
    }

    // The same of each level from 1 to the top.
    fn levels_whole(&self, t: Tracker, x: usize) -> bool
        requires { (t.group < groups self.now.shape.n) × (x < length self.now.trackers.now) }
        ensures { result ≡ all (λ e. level_whole (seen self.now) x t (suc e)) (top_of self.now.shape) }
    {
        (0..self.shape.top()).all(|d| self.level_whole(t, x, d + 1))
    }

    // Tracker x: its group exists, its phase is as it must be, and so are the lines of its blocks.
    #[tactic(auto, unfolding(rules::specs::Whole::tracker_whole, laws::specs::Choice::both, laws::specs::Choice::implies, laws::specs::Choice::no))]
    fn tracker_whole(&self, x: usize) -> bool
        requires { x < length self.now.trackers.now }
        ensures { result ≡ tracker_whole (seen self.now) x }
    {
        let t = self.trackers[x];
        if t.is_idle() {
            return true;
        }
        u64::from(t.group) < Geometry::groups(self.shape.n)
            && phase_whole(self.shape.top(), t.phase, t.write, t.bottom)
            && self.levels_whole(t, x)
    }

    // Each of the T trackers.
    fn trackers_whole(&self) -> bool
        ensures { result ≡ all (tracker_whole (seen self.now)) self.now.shape.t }
    {
        (0..self.shape.t as usize).all(|x| self.tracker_whole(x))
    }

    // Lines L and up are free.
    fn rest_free(&self) -> bool
        ensures { result ≡ all (λ i. implies (leb self.now.shape.l i) (no (used (get_or self.now.lines.now i 0)))) (length self.now.lines.now) }
    {
        self.lines.iter().skip(self.shape.l).all(|&w| w == 0)
    }

    // Trackers T and up are idle.
    fn rest_idle(&self) -> bool
        ensures { result ≡ all (λ x. implies (leb self.now.shape.t x) (is_idle (tracker_at self.now.trackers.now x))) (length self.now.trackers.now) }
    {
        let trackers = self.trackers;
        trackers
            .iter()
            .skip(self.shape.t as usize)
            .all(|u| u.is_idle())
    }

    // The state with these parts is whole.
    #[tactic(auto, unfolding(rules::specs::Whole::whole, laws::specs::Choice::both))]
    fn whole(&self) -> bool
        ensures { result ≡ whole (seen self.now) }
    {
        self.shape.hand < self.shape.l
            && self.rest_free()
            && self.rest_idle()
            && self.lines_whole()
            && self.trackers_whole()
    }
}

// The state with these parts is whole.
pub fn whole(shape: Shape, lines: &[u32], trackers: &[Tracker; Geometry::MOST_TRACKERS]) -> bool
    ensures { result ≡ whole (state_of shape lines.now trackers.now) }
{
    if !limits(
        shape.top(),
        u64::from(shape.n),
        u64::from(shape.t),
        shape.l as u64,
    ) {
        return false;
    }
    if lines.len() < shape.l {
        return false;
    }
    Parts {
        shape,
        lines,
        trackers,
    }
    .whole()
}

// Each of the t trackers is idle; those past the table are.
fn all_idle(t: u32, trackers: &[Tracker; Geometry::MOST_TRACKERS]) -> bool
    ensures { result ≡ all (λ x. is_idle (tracker_at trackers.now x)) t }
{
    trackers.iter().take(t as usize).all(|u| u.is_idle())
}

// Tracker x is idle; one past the table is.
fn idle_at(trackers: &[Tracker; Geometry::MOST_TRACKERS], x: u64) -> bool
    ensures { result ≡ is_idle (tracker_at trackers.now x) }
{
    trackers.get(x as usize).is_none_or(|u| u.is_idle())
}

// An access meets this tracker: it is busy with the same group, and one of the two is a write.
#[tactic(auto, unfolding(rules::specs::Calls::meets, laws::specs::Choice::both, laws::specs::Choice::either))]
fn meets(access: Access, tracker: Tracker) -> bool
    ensures { result ≡ meets access tracker }
{
    !tracker.is_idle() && tracker.group == access.group && (access.write || tracker.write)
}

// An access meets none of the t trackers; those past the table are idle.
fn meets_none(t: u32, access: Access, trackers: &[Tracker; Geometry::MOST_TRACKERS]) -> bool
    ensures { result ≡ meets_none t access trackers.now }
{
    trackers.iter().take(t as usize).all(|u| !meets(access, *u))
}

// An access is issued to tracker x, as to what comes after 4 and 2: refusals 5, 6, 7, 13.
#[tactic(auto, unfolding(laws::specs::Refusal::refusal))]
pub fn can_issue(
    shape: Shape,
    x: u64,
    access: Access,
    trackers: &[Tracker; Geometry::MOST_TRACKERS],
) -> Result<(), Refusal>
    ensures { refused_with result ≡ refusal (issue_tests shape x access trackers.now) }
{
    if u64::from(shape.t) <= x {
        return Err(Refusal::NoTracker);
    }
    if Geometry::groups(shape.n) <= u64::from(access.group) {
        return Err(Refusal::NoGroup);
    }
    if !idle_at(trackers, x) {
        return Err(Refusal::BusyTracker);
    }
    if !meets_none(shape.t, access, trackers) {
        return Err(Refusal::SharedGroup);
    }
    Ok(())
}

// Tracker x takes a step, as to what comes after 4 and 2: refusals 5, 8.
#[tactic(auto, unfolding(laws::specs::Refusal::refusal))]
pub fn can_step(
    shape: Shape,
    x: u64,
    trackers: &[Tracker; Geometry::MOST_TRACKERS],
) -> Result<(), Refusal>
    ensures { refused_with result ≡ refusal (step_tests shape x trackers.now) }
{
    if u64::from(shape.t) <= x {
        return Err(Refusal::NoTracker);
    }
    if idle_at(trackers, x) {
        return Err(Refusal::IdleTracker);
    }
    Ok(())
}

// The lines are drained, as to what comes after 4 and 2: refusal 7.
#[tactic(auto, unfolding(laws::specs::Refusal::refusal))]
pub fn can_drain(shape: Shape, trackers: &[Tracker; Geometry::MOST_TRACKERS]) -> Result<(), Refusal>
    ensures { refused_with result ≡ refusal (drain_tests (all (λ x. is_idle (tracker_at trackers.now x)) shape.t)) }
{
    if !all_idle(shape.t, trackers) {
        return Err(Refusal::BusyTracker);
    }
    Ok(())
}

// Leaf k is shown, as to what comes after 4 and 2: refusals 6, 7.
#[tactic(auto, unfolding(laws::specs::Refusal::refusal))]
pub fn can_show(
    shape: Shape,
    k: u64,
    trackers: &[Tracker; Geometry::MOST_TRACKERS],
) -> Result<(), Refusal>
    ensures { refused_with result ≡ refusal (show_tests shape k (all (λ x. is_idle (tracker_at trackers.now x)) shape.t)) }
{
    if u64::from(shape.n) <= k {
        return Err(Refusal::NoGroup);
    }
    can_drain(shape, trackers)
}
