// 01 "One step of a tracker" on rows that are lent: the steps on a block above the leaves, Top and Finish, and a step by its tracker's phase.
// The public functions have no `requires`: what a step relies on is tested, and refused where it fails.
#![tactic(auto)]

ghost use Rattle.std.specs.Prelude.{◌≡◌, true, List, ℕ, suc, ◌+◌, ◌*◌, ◌≤◌, ◌<◌, length};
ghost use Rattle.geometry.specs.Shape.{top_of};
ghost use Rattle.laws.specs.Choice.{pick};
ghost use Rattle.geometry.specs.TagMemory.{groups, in_limits_of, map_byte_of, map_bit_of, index};
ghost use Rattle.block.specs.Block.{put_bit};
ghost use Rattle.line.specs.Word.{holders};
ghost use Rattle.tracker.specs.Tracker.{level_of};
ghost use Rattle.rules.specs.State.{lengths_right};
ghost use Rattle.rules.specs.Step.{ends, asks_zero, says_zero, descend, top, finish, by_phase, fit, turn_of};
ghost use Rattle.placing.specs.Lines.{rows, brought};
ghost use Rattle.own.specs.Own.{line_on};
ghost use Rattle.step.specs.Step.{holds_it, changed_at};
ghost use Rattle.outcome.specs.Steps.{turned, OnAnyRows};

use geometry::{Geometry, Shape};
use laws::Refusal;
use outcome::Turned;
use own::Own;
use placing::Spot;
use tracker::{Phase, Tracker, Transfers};

// A read, or a write of 0: bit 0 ends it.
fn asks_zero(t: Tracker) -> bool
    ensures { result ≡ asks_zero t }
{
    !t.write || t.value == 0
}

// A read ends with 0, a write of 0 "same".
fn ends_zero(shape: Shape, t: Tracker, copies: Transfers) -> Turned
    ensures { OnAnyRows (λ q. ends (says_zero t) shape t copies q) result }
{
    if t.write {
        outcome::ends_same(shape, t, copies)
    } else {
        outcome::ends_read(shape, t, copies, 0)
    }
}

// The line's block is held by tracker x, which goes on to the block of level d below it.
fn holds(x: u32, d: u8, spot: Spot, t: Tracker, lines: &mut [u32]) -> Turned
    requires { (x < holders) × (spot.line < length lines.old) }
    ensures { (bs m : List ℕ) → turned result lines.new bs m ≡ holds_it x d t (brought spot lines.old bs m) }
{
    let i = spot.line;
    lines[i] = line::held_by(lines[i], x + 1);
    outcome::goes(spot.shape, t, spot.copies, Phase::Under(d))
}

// The block of level d + 1 in its line. Bit 0 over that of level d: a read ends with 0; a write of 0 ends "same"; let go. Otherwise hold the block, on to level d.
fn descend(
    x: u32,
    own: Own,
    d: u8,
    spot: Spot,
    t: Tracker,
    lines: &mut [u32],
    bytes: &[u8],
) -> Turned
    requires { (x < holders) × (spot.line < length lines.old) }
    ensures { (m : List ℕ) → turned result lines.new bytes.now m ≡ descend x (line_on own) d t (brought spot lines.old bytes.now m) }
{
    if own::bit_in(bytes, spot.line, d, t.group) == 0 && asks_zero(t) {
        own::let_go(spot.shape, t, own, lines);
        return ends_zero(spot.shape, t, spot.copies);
    }
    holds(x, d, spot, t, lines)
}

// Top, 01's Map. If another tracker holds this block: wait. Else bring it in.
fn top(
    shape: Shape,
    x: u32,
    t: Tracker,
    lines: &mut [u32],
    bytes: &mut [u8],
    memory: &mut [u8],
) -> Turned
    requires { (in_limits_of (top_of shape) shape.n ≡ true) × (t.group < groups shape.n) × (x < holders) × (shape.l ≤ length lines.old) }
    ensures { turned result lines.new bytes.new memory.new ≡ top shape x t (rows lines.old bytes.old memory.old) }
{
    let below = shape.below_top();
    let own = own::find(shape, t.group, lines);
    let i = own.at(shape.top());
    if i < shape.l {
        if line::held(lines[i]) {
            return outcome::waits(shape, t);
        }
        return descend(x, own, below, Spot::at(i, shape), t, lines, bytes);
    }
    let b = Geometry::block_over(shape.top(), shape.n, t.group) as u32;
    let Some(spot) = placing::fetch(shape, b, lines, bytes, memory) else {
        return outcome::refuses(Refusal::BrokenState as u8, shape, t);
    };
    descend(x, own, below, spot, t, lines, bytes)
}

// Set or clear the bit over group g's block of level d, in line j.
fn put_bit(set: bool, d: u8, j: usize, g: u32, bytes: &mut [u8])
    requires { 64 * j + 64 ≤ length bytes.old }
    ensures { bytes.new ≡ put_bit bytes.old (64 * j + map_byte_of (index d g)) (map_bit_of (index d g)) (pick set 1 0) }
{
    let k = Geometry::index(d, g);
    block::put_bit(
        bytes,
        Geometry::BLOCK_LEN * j + Geometry::map_byte_of(k),
        Geometry::map_bit_of(k),
        set,
    );
}

// Line j is changed; it names whom it named.
fn change(lines: &mut [u32], j: usize)
    requires { j < length lines.old }
    ensures { lines.new ≡ changed_at lines.old j }
{
    let w = lines[j];
    lines[j] = line::word(line::block_of(w), true, line::holder(w));
}

// Finish at the top: set or clear the bit over the block of level d, the top line is changed, end "done", let go; 4 where no line has the top block.
fn finish(shape: Shape, set: bool, d: u8, t: Tracker, lines: &mut [u32], bytes: &mut [u8]) -> Turned
    requires { (in_limits_of (top_of shape) shape.n ≡ true) × (suc d ≡ top_of shape) × (shape.l ≤ length lines.old) × (length bytes.old ≡ 64 * shape.l) }
    ensures { (m : List ℕ) → turned result lines.new bytes.new m ≡ finish shape set d t (rows lines.old bytes.old m) }
{
    let own = own::find(shape, t.group, lines);
    let j = own.at(shape.top());
    if shape.l <= j {
        return outcome::refuses(Refusal::BrokenState as u8, shape, t);
    }
    put_bit(set, d, j, t.group, bytes);
    change(lines, j);
    own::let_go(shape, t, own, lines);
    outcome::ends_done(shape, t, Transfers::none())
}

// Each step is one of these; a phase is of a level below the top, and 01's device has one.
fn by_phase(
    shape: Shape,
    x: u32,
    t: Tracker,
    lines: &mut [u32],
    bytes: &mut [u8],
    memory: &mut [u8],
) -> Turned
    requires { (in_limits_of (top_of shape) shape.n ≡ true) × (t.group < groups shape.n) × (level_of t.phase < top_of shape) × (x < holders) × (shape.l ≤ length lines.old) × (length bytes.old ≡ 64 * shape.l) }
    ensures { turned result lines.new bytes.new memory.new ≡ by_phase shape x t (rows lines.old bytes.old memory.old) t.phase }
{
    match t.phase {
        Phase::Idle => outcome::refuses(Refusal::IdleTracker as u8, shape, t),
        Phase::Probe(_) => leaf::probe(shape, t, lines, bytes),
        Phase::Top => top(shape, x, t, lines, bytes, memory),
        Phase::Under(_) => leaf::leaf(shape, t, lines, bytes, memory),
        Phase::Set(_) => finish(shape, true, 0, t, lines, bytes),
        Phase::Clear(_) => finish(shape, false, 0, t, lines, bytes),
    }
}

// What a step can rely on: the device exists, L lines, the tracker's group and its phase's level exist, its number fits a line's word.
#[tactic(auto, unfolding(rules::specs::Step::fit, laws::specs::Choice::both))]
fn fit(shape: Shape, x: u32, t: Tracker, lines: &[u32]) -> bool
    ensures { (bs m : List ℕ) → result ≡ fit shape x t (rows lines.now bs m) }
{
    let top = shape.top();
    Geometry::in_limits_of(top, u64::from(shape.n))
        && shape.l <= lines.len()
        && u64::from(t.group) < Geometry::groups(shape.n)
        && t.phase.level() < top
        && x < line::HOLDERS
}

// The line bytes and memory have their lengths.
#[tactic(auto, unfolding(rules::specs::State::lengths_right, laws::specs::Choice::both))]
pub fn lengths_right(shape: Shape, bytes: &[u8], memory: &[u8]) -> bool
    ensures { result ≡ lengths_right shape bytes.now memory.now }
{
    placing::bytes_fit(shape.l, bytes)
        && memory.len() as u64 == Geometry::length_of(shape.top(), shape.n)
}

// One step of tracker x, which is t.
pub fn turn(
    shape: Shape,
    x: u32,
    t: Tracker,
    lines: &mut [u32],
    bytes: &mut [u8],
    memory: &mut [u8],
) -> Turned
    ensures { turned result lines.new bytes.new memory.new ≡ turn_of shape x t (rows lines.old bytes.old memory.old) }
{
    if !fit(shape, x, t, lines) {
        return outcome::refuses(Refusal::BrokenState as u8, shape, t);
    }
    if !lengths_right(shape, bytes, memory) {
        return outcome::refuses(Refusal::OtherLength as u8, shape, t);
    }
    by_phase(shape, x, t, lines, bytes, memory)
}
