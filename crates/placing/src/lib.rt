// 01 "The cache" on rows that are lent: placing a block, bringing one in, draining.
// No public function has a `requires`: where the rows are not of L lines, no line is taken and nothing changes.
#![tactic(auto)]

ghost use Rattle.std.specs.Prelude.{◌≡◌, List, ℕ, ◌+◌, ◌*◌, ◌≤◌, ◌<◌, eqb, length, IfSome};
ghost use Rattle.tracker.specs.Transfers.{none};
ghost use Rattle.rules.specs.Copies.{tally};
ghost use Rattle.rules.specs.Place.{rows_fit, written_back, back_of, filled, bring_in, create};
ghost use Rattle.placing.specs.Lines.{rows, placed, fetched, brought_if, all_drained, drained_on, leaves};

use geometry::{Geometry, Shape};
use tracker::Transfers;

// A line that has the block or that it was placed in, the shape with its hand, and the sums of the copies that were made.
#[derive(Drop)]
pub struct Spot {
    pub line: usize,
    pub shape: Shape,
    pub copies: Transfers,
}

impl Spot {
    // A line that is there, with no copy made.
    pub fn at(line: usize, shape: Shape) -> Spot
        ensures { result ≡ record { line = line; shape = shape; copies = none } }
    {
        Spot {
            line,
            shape,
            copies: Transfers::none(),
        }
    }
}

// The line bytes are those of L lines.
pub fn bytes_fit(l: usize, bytes: &[u8]) -> bool
    ensures { result ≡ eqb (length bytes.now) (64 * l) }
{
    bytes.len() % Geometry::BLOCK_LEN == 0 && bytes.len() / Geometry::BLOCK_LEN == l
}

// The rows are of L lines.
#[tactic(auto, unfolding(rules::specs::Place::rows_fit, laws::specs::Choice::both))]
pub fn rows_fit(l: usize, lines: &[u32], bytes: &[u8]) -> bool
    ensures { result ≡ rows_fit l lines.now bytes.now }
{
    l <= lines.len() && bytes_fit(l, bytes)
}

// Line i, if it is changed, straight from its bytes to its block's own place in memory; the sums of this copy.
fn write_back(i: usize, lines: &[u32], bytes: &[u8], memory: &mut [u8]) -> Transfers
    requires { (i < length lines.now) × (64 * i + 64 ≤ length bytes.now) }
    ensures { (memory.new ≡ written_back lines.now bytes.now memory.old i) × (result ≡ tally (back_of lines.now i)) }
{
    let w = lines[i];
    if !line::changed(w) {
        return Transfers::none();
    }
    let at = Geometry::block_place(line::block_of(w));
    block::copy_block(memory, at, bytes, Geometry::BLOCK_LEN * i);
    Transfers {
        fetched: 0,
        back: 1,
    }
}

// Kept: the three rows as three parameters, here and in each function that is lent some of them, and no struct of three `&mut`: its functions would have to
// say of each row that it is the one that was lent and as long as it was, and not which of them they only read; here the types say both.
// Placing a block: the line to take, written back if it was changed, and the shape with its hand; none where no line can be taken.
pub fn place(shape: Shape, lines: &[u32], bytes: &[u8], memory: &mut [u8]) -> Option<Spot>
    ensures line { IfSome result (λ s. s.line < shape.l) }
    ensures left { brought_if shape result lines.now bytes.now memory.new ≡ placed shape (rows lines.now bytes.now memory.old) }
{
    let l = shape.l;
    if !rows_fit(l, lines, bytes) {
        return None;
    }
    let free = line::lowest_free(lines, l);
    if free < l {
        return Some(Spot::at(free, shape));
    }
    let i = line::victim(lines, l, shape.hand);
    if l <= i {
        return None;
    }
    let copies = write_back(i, lines, bytes, memory);
    Some(Spot {
        line: i,
        shape: shape.at_hand(line::after(l, i)),
        copies,
    })
}

// Line i has block b with these bytes, changed or clean; line bytes that have no such line stay as they were.
fn fill(
    i: usize,
    b: u32,
    changed: bool,
    block: &[u8; Geometry::BLOCK_LEN],
    lines: &mut [u32],
    bytes: &mut [u8],
)
    requires { i < length lines.old }
    ensures { (m : List ℕ) → rows lines.new bytes.new m ≡ filled (rows lines.old bytes.old m) i b changed block.now }
{
    lines[i] = line::word(b, changed, 0);
    if i < bytes.len() / Geometry::BLOCK_LEN {
        block::write_block(bytes, Geometry::BLOCK_LEN * i, block);
    }
}

// Bringing in a block that no line has: it is placed, and its 64 bytes are copied from memory, clean.
pub fn fetch(
    shape: Shape,
    b: u32,
    lines: &mut [u32],
    bytes: &mut [u8],
    memory: &mut [u8],
) -> Option<Spot>
    ensures line { IfSome result (λ s. s.line < shape.l) }
    ensures left { brought_if shape result lines.new bytes.new memory.new ≡ fetched shape b (rows lines.old bytes.old memory.old) }
{
    let spot = place(shape, lines, bytes, memory)?;
    let block = block::read_block(memory, Geometry::block_place(b));
    fill(spot.line, b, false, &block, lines, bytes);
    let one = Transfers {
        fetched: 1,
        back: 0,
    };
    Some(Spot {
        copies: spot.copies.plus(one),
        ..spot
    })
}

// Bringing in block b: the line that has it, else it is fetched.
pub fn bring_in(
    shape: Shape,
    b: u32,
    lines: &mut [u32],
    bytes: &mut [u8],
    memory: &mut [u8],
) -> Option<Spot>
    ensures line { IfSome result (λ s. s.line < shape.l) }
    ensures left { brought_if shape result lines.new bytes.new memory.new ≡ bring_in shape b (rows lines.old bytes.old memory.old) }
{
    let i = line::line_of(lines, shape.l, b);
    if i < shape.l {
        return Some(Spot::at(i, shape));
    }
    fetch(shape, b, lines, bytes, memory)
}

// Block b with these bytes into the line that has it, else it is placed; changed, and never fetched.
pub fn create(
    shape: Shape,
    b: u32,
    block: &[u8; Geometry::BLOCK_LEN],
    lines: &mut [u32],
    bytes: &mut [u8],
    memory: &mut [u8],
) -> Option<Spot>
    ensures line { IfSome result (λ s. s.line < shape.l) }
    ensures left { brought_if shape result lines.new bytes.new memory.new ≡ create shape b block.now (rows lines.old bytes.old memory.old) }
{
    let i = line::line_of(lines, shape.l, b);
    if i < shape.l {
        fill(i, b, true, block, lines, bytes);
        return Some(Spot::at(i, shape));
    }
    let spot = place(shape, lines, bytes, memory)?;
    fill(spot.line, b, true, block, lines, bytes);
    Some(spot)
}

// Changed lines to memory, lowest line first, and marked clean, in rows that are of L lines; the sums of these copies.
fn drain_all(l: usize, lines: &mut [u32], bytes: &[u8], memory: &mut [u8]) -> Transfers
    requires { (l ≤ length lines.old) × (length bytes.now ≡ 64 * l) }
    ensures { leaves result lines.new bytes.now memory.new ≡ all_drained l (rows lines.old bytes.now memory.old) }
{
    let mut copies = Transfers::none();
    for i in 0..l {
        if line::changed(lines[i]) {
            copies = copies.plus(write_back(i, lines, bytes, memory));
            lines[i] = line::cleaned(lines[i]);
        }
    }
    copies
}

// Changed lines to memory, lowest line first, and marked clean; the lines stay. The sums of these copies.
pub fn drain(shape: Shape, lines: &mut [u32], bytes: &[u8], memory: &mut [u8]) -> Transfers
    ensures { leaves result lines.new bytes.now memory.new ≡ drained_on shape (rows lines.old bytes.now memory.old) }
{
    if rows_fit(shape.l, lines, bytes) {
        drain_all(shape.l, lines, bytes, memory)
    } else {
        Transfers::none()
    }
}
