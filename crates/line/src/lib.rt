// 01 "The cache": a line as one number, and which line has a block, is free, or is the one to give up.
// No public function has a `requires`: a line that the row does not have reads as 0, which is free.
#![tactic(auto)]

ghost use Rattle.std.specs.Prelude.{◌≡◌};
ghost use Rattle.line.specs.Word.{block_of, changed, holder, held, has, word, held_by, cleaned};
ghost use Rattle.line.specs.Find.{line_of, lowest_free, loose_from, victim, after};

// Kept: a line is one number and no struct, since the words of a state, which C keeps, have it so (coding's `codes_line`).
// The marks of a holder: its number plus one, or 0.
const MARKS: u32 = 128;

// The trackers that a line can name.
pub const HOLDERS: u32 = 127;

// The blocks that a line can have.
const BLOCKS: u32 = 16777215;

// The block that a used line holds.
#[tactic(auto, unfolding(crate::specs::Word::block_of))]
pub fn block_of(w: u32) -> u32
    ensures { result ≡ block_of w }
{
    w.saturating_sub(1) / 256
}

// The line's bytes are not those of memory.
#[tactic(auto, unfolding(crate::specs::Word::changed))]
pub fn changed(w: u32) -> bool
    ensures { result ≡ changed w }
{
    w.saturating_sub(1) % 2 == 1
}

// The number of the tracker that holds the line's block, plus one; 0 for none.
#[tactic(auto, unfolding(crate::specs::Word::holder))]
pub fn holder(w: u32) -> u32
    ensures { result ≡ holder w }
{
    w.saturating_sub(1) / 2 % MARKS
}

// A tracker holds the line's block.
#[tactic(auto, unfolding(crate::specs::Word::held))]
pub fn held(w: u32) -> bool
    ensures { result ≡ held w }
{
    0 < holder(w)
}

// The line has block b.
pub fn has(w: u32, b: u32) -> bool
    ensures { result ≡ has w b }
{
    (u64::from(w) + 255) / 256 == u64::from(b) + 1
}

// The line of block b, changed or clean, with its holder's number plus one or 0; free where a number is too large for it.
pub fn word(b: u32, c: bool, h: u32) -> u32
    ensures { result ≡ word b c h }
{
    if b < BLOCKS && h < MARKS {
        1 + u32::from(c) + 2 * h + 256 * b
    } else {
        0
    }
}

// The same line with another holder.
#[tactic(auto, unfolding(crate::specs::Word::held_by))]
pub fn held_by(w: u32, h: u32) -> u32
    ensures { result ≡ held_by w h }
{
    word(block_of(w), changed(w), h)
}

// The same line clean.
#[tactic(auto, unfolding(crate::specs::Word::cleaned))]
pub fn cleaned(w: u32) -> u32
    ensures { result ≡ cleaned w }
{
    if changed(w) { w - 1 } else { w }
}

// Kept: line l for none, and no Option: `Find.line_of`, `lowest_free`, `loose_from` and `victim`, which 01's rules are made of (`Place.place_line`), have it so.
// The line that has block b, of l lines; l where none has.
pub fn line_of(lines: &[u32], l: usize, b: u32) -> usize
    ensures { result ≡ line_of lines.now l b }
{
    for i in 0..l.min(lines.len()) {
        if has(lines[i], b) {
            return i;
        }
    }
    l
}

// The lowest free line of l; l where none is free.
pub fn lowest_free(lines: &[u32], l: usize) -> usize
    ensures { result ≡ lowest_free lines.now l }
{
    let end = l.min(lines.len());
    for i in 0..end {
        if lines[i] == 0 {
            return i;
        }
    }
    end
}

// The first of l lines, at or after `from`, that no tracker holds; l where there is none.
pub fn loose_from(lines: &[u32], l: usize, from: usize) -> usize
    ensures { result ≡ loose_from lines.now l from }
{
    let end = l.min(lines.len());
    if end <= from {
        return l.min(from);
    }
    for i in from..end {
        if !held(lines[i]) {
            return i;
        }
    }
    end
}

// The first of l lines at or after the hand, round the circle, that no tracker holds; l where there is none.
#[tactic(auto, unfolding(crate::specs::Find::victim))]
pub fn victim(lines: &[u32], l: usize, hand: usize) -> usize
    ensures { result ≡ victim lines.now l hand }
{
    let i = loose_from(lines, l, hand);
    if i < l { i } else { loose_from(lines, l, 0) }
}

// The line after line i, of l lines: after l - 1 comes 0.
pub fn after(l: usize, i: usize) -> usize
    ensures { result ≡ after l i }
{
    if i < l.saturating_sub(1) { i + 1 } else { 0 }
}
