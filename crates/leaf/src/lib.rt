// 01 "One step of a tracker": the steps on a leaf, Probe and Leaf, on rows that are lent.
// No public function has a `requires`: where the rows are not of L lines, the step is refused.
#![tactic(auto)]

ghost use Rattle.std.specs.Prelude.{◌≡◌, List, ℕ, ◌+◌, ◌*◌, ◌≤◌, ◌<◌, ltb, length};
ghost use Rattle.laws.specs.Choice.{both};
ghost use Rattle.rules.specs.Place.{rows_fit};
ghost use Rattle.rules.specs.Step.{group_in, new_leaf, leaf_read, put_in, write_under1, write_under0};
ghost use Rattle.own.specs.Own.{line_on, Owns};
ghost use Rattle.placing.specs.Lines.{rows, brought};
ghost use Rattle.outcome.specs.Steps.{turned, OnAnyMemory};
ghost use Rattle.leaf.specs.Leaf.{probe_on, leaf_on};

use geometry::{Geometry, Shape};
use laws::Refusal;
use outcome::Turned;
use own::Own;
use placing::Spot;
use tracker::{Phase, Tracker, Transfers};

// Group g in line i.
#[tactic(auto, unfolding(geometry::specs::TagMemory::byte_of))]
fn group_in(bytes: &[u8], i: usize, g: u32) -> u32
    requires { 64 * i + 64 ≤ length bytes.now }
    ensures { result ≡ group_in bytes.now i g }
{
    block::group_at(bytes, Geometry::BLOCK_LEN * i + Geometry::byte_of(g))
}

// Probe. Leaf in a line: a read ends with the group; a write whose group equals v ends "same". Otherwise on.
pub fn probe(shape: Shape, t: Tracker, lines: &[u32], bytes: &[u8]) -> Turned
    ensures { OnAnyMemory (λ q. probe_on shape t q) result lines.now bytes.now lines.now bytes.now }
{
    if !placing::rows_fit(shape.l, lines, bytes) {
        return outcome::refuses(Refusal::BrokenState as u8, shape, t);
    }
    let none = Transfers::none();
    let next = Phase::after_probe(shape.top(), 0);
    let i = line::line_of(lines, shape.l, Geometry::leaf_of(t.group));
    if shape.l <= i {
        return outcome::goes(shape, t, none, next);
    }
    let v = group_in(bytes, i, t.group);
    if !t.write {
        return outcome::ends_read(shape, t, none, v);
    }
    if v == t.value {
        return outcome::ends_same(shape, t, none);
    }
    outcome::goes(shape, t, none, next)
}

// Leaf, read. Bring in the leaf, end with the group, let go of its own lines.
fn leaf_read(
    shape: Shape,
    own: Own,
    t: Tracker,
    lines: &mut [u32],
    bytes: &mut [u8],
    memory: &mut [u8],
) -> Turned
    requires { Owns own shape t.group lines.old × (shape.l ≤ length lines.old) × (length bytes.old ≡ 64 * shape.l) }
    ensures { turned result lines.new bytes.new memory.new ≡ leaf_read shape t (rows lines.old bytes.old memory.old) }
{
    let Some(spot) = placing::bring_in(shape, Geometry::leaf_of(t.group), lines, bytes, memory)
    else {
        return outcome::refuses(Refusal::BrokenState as u8, shape, t);
    };
    let v = group_in(bytes, spot.line, t.group);
    own::let_go(spot.shape, t, own, lines);
    outcome::ends_read(spot.shape, t, spot.copies, v)
}

// Put v in, the leaf in its line. All 64 bytes now zero: the line is made free, on to Finish (clear). Else the line is changed, end "done", let go.
#[tactic(auto, unfolding(geometry::specs::TagMemory::byte_of))]
fn put_in(own: Own, spot: Spot, t: Tracker, lines: &mut [u32], bytes: &mut [u8]) -> Turned
    requires { (spot.line < length lines.old) × (64 * spot.line + 64 ≤ length bytes.old) }
    ensures { (m : List ℕ) → turned result lines.new bytes.new m ≡ put_in (line_on own) t (brought spot lines.old bytes.old m) }
{
    let i = spot.line;
    let at = Geometry::BLOCK_LEN * i;
    block::put_group(bytes, at + Geometry::byte_of(t.group), t.value);
    if block::all_zero(&bytes[at..at + Geometry::BLOCK_LEN]) {
        lines[i] = 0;
        return outcome::goes(spot.shape, t, spot.copies, Phase::Clear(0));
    }
    lines[i] = line::word(Geometry::leaf_of(t.group), true, 0);
    own::let_go(spot.shape, t, own, lines);
    outcome::ends_done(spot.shape, t, spot.copies)
}

// Leaf, write, under bit 1. Bring in the leaf; group equal to v: end "same", let go. Else put v in.
fn write_under_1(
    shape: Shape,
    own: Own,
    t: Tracker,
    lines: &mut [u32],
    bytes: &mut [u8],
    memory: &mut [u8],
) -> Turned
    requires { Owns own shape t.group lines.old × (shape.l ≤ length lines.old) × (length bytes.old ≡ 64 * shape.l) }
    ensures { turned result lines.new bytes.new memory.new ≡ write_under1 shape t (rows lines.old bytes.old memory.old) }
{
    let Some(spot) = placing::bring_in(shape, Geometry::leaf_of(t.group), lines, bytes, memory)
    else {
        return outcome::refuses(Refusal::BrokenState as u8, shape, t);
    };
    if group_in(bytes, spot.line, t.group) == t.value {
        own::let_go(spot.shape, t, own, lines);
        return outcome::ends_same(spot.shape, t, spot.copies);
    }
    put_in(own, spot, t, lines, bytes)
}

// 64 zero bytes, never fetched, with v put in.
fn new_leaf(t: Tracker) -> [u8; Geometry::BLOCK_LEN]
    ensures { result ≡ new_leaf t }
{
    let mut leaf = [0u8; Geometry::BLOCK_LEN];
    block::put_group(&mut leaf, Geometry::byte_of(t.group), t.value);
    leaf
}

// Leaf, write, under bit 0. Group equal to v: end "same", let go. Else the leaf goes into its line if it has one, else is placed; on to Finish (set).
fn write_under_0(
    shape: Shape,
    own: Own,
    t: Tracker,
    lines: &mut [u32],
    bytes: &mut [u8],
    memory: &mut [u8],
) -> Turned
    requires { Owns own shape t.group lines.old }
    ensures { turned result lines.new bytes.new memory.new ≡ write_under0 shape t (rows lines.old bytes.old memory.old) }
{
    if t.value == 0 {
        own::let_go(shape, t, own, lines);
        return outcome::ends_same(shape, t, Transfers::none());
    }
    let new = new_leaf(t);
    let leaf = Geometry::leaf_of(t.group);
    let Some(spot) = placing::create(shape, leaf, &new, lines, bytes, memory) else {
        return outcome::refuses(Refusal::BrokenState as u8, shape, t);
    };
    outcome::goes(spot.shape, t, spot.copies, Phase::Set(0))
}

// The rows are of L lines, and j is one of them.
#[tactic(auto, unfolding(laws::specs::Choice::both))]
fn in_rows(l: usize, j: usize, lines: &[u32], bytes: &[u8]) -> bool
    ensures { result ≡ both (ltb j l) (rows_fit l lines.now bytes.now) }
{
    j < l && placing::rows_fit(l, lines, bytes)
}

// Leaf, under the bit in its own line of level 1; 4 where it has none.
pub fn leaf(
    shape: Shape,
    t: Tracker,
    lines: &mut [u32],
    bytes: &mut [u8],
    memory: &mut [u8],
) -> Turned
    ensures { turned result lines.new bytes.new memory.new ≡ leaf_on shape t (rows lines.old bytes.old memory.old) }
{
    let own = own::find(shape, t.group, lines);
    if !in_rows(shape.l, own.one, lines, bytes) {
        return outcome::refuses(Refusal::BrokenState as u8, shape, t);
    }
    if !t.write {
        return leaf_read(shape, own, t, lines, bytes, memory);
    }
    if own::bit_in(bytes, own.one, 0, t.group) == 0 {
        return write_under_0(shape, own, t, lines, bytes, memory);
    }
    write_under_1(shape, own, t, lines, bytes, memory)
}
