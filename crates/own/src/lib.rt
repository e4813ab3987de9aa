// 01 "One step of a tracker": the lines of the blocks over a tracker's group, its own: where they are, the bit that one of them has, letting them go.
// No public function has a `requires`: where there is no such device no line is found, and a line that the rows do not have is none.
#![tactic(auto)]

ghost use Rattle.std.specs.Prelude.{◌≡◌};
ghost use Rattle.laws.specs.Choice.{pick};
ghost use Rattle.geometry.specs.Shape.{top_of};
ghost use Rattle.tracker.specs.Tracker.{keeps_at};
ghost use Rattle.line.specs.Word.{held, held_by};
ghost use Rattle.rules.specs.Step.{bit_in, loosened, let_go};
ghost use Rattle.own.specs.Own.{line_over, own_of, line_on};

use geometry::{Geometry, Shape};
use tracker::{Phase, Tracker};

// Kept: line L for none, and no Option: `Step.let_go` lets go of line L too, where the row has one, and `let_go` promises that.
// The own lines of levels 1 and 2: no device has more levels above its leaves.
#[derive(Clone, Copy)]
pub struct Own {
    pub one: usize,
    pub two: usize,
}

impl Own {
    // The line of level e.
    pub fn at(self, e: u8) -> usize
        ensures { result ≡ line_on self e }
    {
        if e == 1 { self.one } else { self.two }
    }
}

// The line of the block of level e over group g; L where it has none.
pub fn line_over(shape: Shape, e: u8, g: u32, lines: &[u32]) -> usize
    ensures { result ≡ line_over shape g lines.now e }
{
    if !Geometry::in_limits_of(shape.top(), u64::from(shape.n)) {
        return shape.l;
    }
    line::line_of(lines, shape.l, Geometry::block_over(e, shape.n, g) as u32)
}

// The own lines over group g; a level past the top has none.
pub fn find(shape: Shape, g: u32, lines: &[u32]) -> Own
    ensures { result ≡ own_of shape g lines.now }
{
    Own {
        one: line_over(shape, 1, g, lines),
        two: if shape.top() <= 1 {
            shape.l
        } else {
            line_over(shape, 2, g, lines)
        },
    }
}

// In line i, which has the block of level e + 1 over group g, the bit over its block of level e; 0 where the bytes have no such line.
pub fn bit_in(bytes: &[u8], i: usize, e: u8, g: u32) -> u8
    ensures { result ≡ bit_in bytes.now i e g }
{
    if bytes.len() / Geometry::BLOCK_LEN < i {
        return 0;
    }
    let k = Geometry::index(e, g);
    block::bit_at(
        bytes,
        Geometry::BLOCK_LEN * i + Geometry::map_byte_of(k),
        Geometry::map_bit_of(k),
    )
}

// The line with no holder.
fn loose(w: u32) -> u32
    ensures { result ≡ pick (held w) (held_by w 0) w }
{
    if line::held(w) {
        line::held_by(w, 0)
    } else {
        w
    }
}

// Line i names nobody; a line past the row is none.
fn loosen(lines: &mut [u32], i: usize)
    ensures { lines.new ≡ loosened lines.old i }
{
    if i < lines.len() {
        lines[i] = loose(lines[i]);
    }
}

// The own line of level e names nobody, where the phase keeps it.
fn let_go_at(phase: Phase, own: Own, e: u8, lines: &mut [u32])
    ensures { lines.new ≡ pick (keeps_at phase e) (loosened lines.old (line_on own e)) lines.old }
{
    if phase.keeps_at(e) {
        loosen(lines, own.at(e));
    }
}

// Of the own lines of levels 1 to top, those that the phase keeps name nobody.
fn let_go_to(phase: Phase, own: Own, top: u8, lines: &mut [u32])
    ensures { lines.new ≡ let_go phase (line_on own) top lines.old }
{
    for e in 0..top {
        let_go_at(phase, own, e + 1, lines);
    }
}

// Let go: of a tracker's own lines, those that its phase keeps name nobody.
pub fn let_go(shape: Shape, t: Tracker, own: Own, lines: &mut [u32])
    ensures { lines.new ≡ let_go t.phase (line_on own) (top_of shape) lines.old }
{
    let_go_to(t.phase, own, shape.top(), lines);
}
