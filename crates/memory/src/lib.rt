// The tag memory on lent bytes: 01 "The tag memory". Plain reading, the true test, and clearing the map.
// No public function has a `requires`: a byte that is not there reads as zero, and a refusal names what was wrong.
#![tactic(auto, unfolding(crate::specs::PlainReading::plain_group, crate::specs::PlainReading::plain_reading, crate::specs::True::is_true, crate::specs::True::cleared_map, crate::specs::True::map_word))]

ghost use Rattle.std.specs.Prelude.{◌≡◌, ◌+◌, ◌-◌, ◌*◌, ◌≤◌, ◌<◌, length, IfOk};
ghost use Rattle.laws.specs.Refusal.{refusal, refused_with, given};
ghost use Rattle.geometry.specs.TagMemory.{count, base, block_place};
ghost use Rattle.memory.specs.PlainReading.{bit_over, next_marked, counts, plain_group_of, plain_group, sized_of, sized, plain_reading_of, plain_reading};
ghost use Rattle.memory.specs.True.{map_word, true_word, true_block, true_level, is_true_of, is_true, cleared_of, cleared_map};

use geometry::Geometry;
use laws::Refusal;

// The bits of a word of the map.
pub const WORD_BITS: u32 = 32;

// The bit over block k of level e in a memory of n leaves.
pub fn bit_over(e: u8, n: u32, memory: &[u8], k: u32) -> u8
    ensures { result ≡ bit_over e n memory.now k }
{
    let at = Geometry::length_of(e, n) as usize + (k / Geometry::BYTE_BITS) as usize;
    block::bit_at(memory, at, Geometry::map_bit_of(k))
}

// Block k of level e counts in a memory of this top level: each bit from the one over it to the top's is 1.
fn counts(top: u8, e: u8, n: u32, memory: &[u8], k: u32) -> bool
    ensures { result ≡ counts (top - e) e n memory.now k }
{
    let mut j = k;
    for c in e..top {
        if bit_over(c, n, memory, j) != 1 {
            return false;
        }
        j = Geometry::map_block_of(j);
    }
    true
}

// Group g in a memory of this top level: the leaf's bytes where the leaf counts, else zero.
pub fn plain_group_of(top: u8, n: u32, memory: &[u8], g: u32) -> u32
    ensures { result ≡ plain_group_of top n memory.now g }
{
    if !counts(top, 0, n, memory, Geometry::leaf_of(g)) {
        return 0;
    }
    block::group_at(memory, Geometry::group_place(g))
}

// Group g: zero under bit 0, the leaf's bytes under bit 1.
pub fn plain_group(n: u32, memory: &[u8], g: u32) -> u32
    ensures { result ≡ plain_group n memory.now g }
{
    plain_group_of(1, n, memory, g)
}

// The memory is one of n leaves and this top level. Refused 1, 2: they come first in each call on a lent memory.
pub fn fits_of(top: u8, n: u64, memory: &[u8]) -> Result<(), Refusal>
    ensures { refused_with result ≡ refusal (sized_of top n memory.now) }
{
    if !Geometry::in_limits_of(top, n) {
        return Err(Refusal::OutsideLimits);
    }
    if memory.len() as u64 != Geometry::length_of(top, n as u32) {
        return Err(Refusal::OtherLength);
    }
    Ok(())
}

// The same of a memory of two levels.
pub fn fits(n: u64, memory: &[u8]) -> Result<(), Refusal>
    ensures { refused_with result ≡ refusal (sized n memory.now) }
{
    fits_of(1, n, memory)
}

// Group g in a memory of this top level. Refused 1 for n, 2 for the length, 6 for the group.
pub fn plain_reading_of(top: u8, n: u64, memory: &[u8], g: u64) -> Result<u32, Refusal>
    ensures told { given result ≡ plain_reading_of top n memory.now g }
    ensures fits { IfOk result (λ v. v < 4294967296) }
{
    fits_of(top, n, memory)?;
    if Geometry::groups(n as u32) <= g {
        return Err(Refusal::NoGroup);
    }
    Ok(plain_group_of(top, n as u32, memory, g as u32))
}

// The same of a memory of two levels.
pub fn plain_reading(n: u64, memory: &[u8], g: u64) -> Result<u32, Refusal>
    ensures told { given result ≡ plain_reading n memory.now g }
    ensures fits { IfOk result (λ v. v < 4294967296) }
{
    plain_reading_of(1, n, memory, g)
}

// The bits of leaves 32 i to 32 i + 31 as a number, the bit of leaf 32 i lowest; a byte that is not there counts 0.
pub fn map_word(n: u32, memory: &[u8], i: u32) -> u32
    ensures { result ≡ map_word n memory.now i }
{
    block::number_at(
        memory,
        Geometry::block_place(n) + Geometry::GROUP_LEN * (i as usize),
    )
}

// The first leaf from k up to but not including end with bit 1; end where there is none. k's word of the map is read from k's bit on; a word of zeros is passed over at once.
// Kept: end for none, and no Option: both callers go on from where the search ends, and an Option would be `unwrap_or(end)` in each.
// It is inlined with both: as a call of its own, a search of a short range takes a seventh more instructions.
#[inline(always)]
pub fn next_marked(n: u32, memory: &[u8], k: u32, end: u32) -> u32
    ensures { result ≡ next_marked n memory.now k end }
{
    let rest = map_word(n, memory, k / WORD_BITS) >> (k % WORD_BITS);
    if rest != 0 {
        return end.min(k + rest.trailing_zeros());
    }
    for i in k / WORD_BITS + 1..end.div_ceil(WORD_BITS) {
        let word = map_word(n, memory, i);
        if word != 0 {
            return end.min(WORD_BITS * i + word.trailing_zeros());
        }
    }
    end
}

// Of the bits of word i over the given number of blocks from block `first` on, those that are 1: each stands over one of them, which is not all zero.
fn word_true(first: usize, blocks: u32, memory: &[u8], i: u32) -> bool
    requires { (32 * i + 32 ≤ 4294967296) × (64 * (first + blocks) ≤ length memory.now) }
    ensures { result ≡ true_word first blocks memory.now i }
{
    let over = Geometry::BLOCK_LEN * (first + (blocks as usize));
    let mut bits = block::number_at(memory, over + Geometry::GROUP_LEN * (i as usize));
    while bits != 0 {
        let k = WORD_BITS * i + u32::trailing_zeros(bits);
        if blocks <= k {
            return false;
        }
        let at = Geometry::BLOCK_LEN * (first + (k as usize));
        if block::all_zero(&memory[at..at + Geometry::BLOCK_LEN]) {
            return false;
        }
        bits &= bits - 1;
    }
    true
}

// The same of the bits over level e in the block j above it, if that counts: another is passed over. They are read by words: where a word is zero, 32 blocks
// are passed over. The level has the given number of blocks, from block `first` on.
fn block_true(top: u8, e: u8, n: u32, first: usize, blocks: u32, memory: &[u8], j: u32) -> bool
    requires { (e < top) × (first ≡ base e n) × (blocks ≡ count e n) × (512 * j + 512 ≤ 4294967296) × (64 * (first + blocks) ≤ length memory.now) }
    ensures { result ≡ true_block (top - e) e n memory.now j }
{
    if !counts(top, e + 1, n, memory, j) {
        return true;
    }
    let words = Geometry::BITS / WORD_BITS;
    for i in 0..words {
        if !word_true(first, blocks, memory, words * j + i) {
            return false;
        }
    }
    true
}

// The same of all bits over level e.
fn level_true(top: u8, e: u8, n: u32, first: usize, blocks: u32, memory: &[u8]) -> bool
    requires { (e < top) × (first ≡ base e n) × (blocks ≡ count e n) }
    ensures { result ≡ true_level (top - e) e n memory.now }
{
    if memory.len() <= Geometry::BLOCK_LEN * (first + (blocks as usize)) {
        return true;
    }
    let end = Geometry::map_blocks(blocks) as u32;
    for j in 0..end {
        if !block_true(top, e, n, first, blocks, memory, j) {
            return false;
        }
    }
    true
}

// The memory of n leaves and this top level is true.
pub fn is_true_of(top: u8, n: u32, memory: &[u8]) -> bool
    ensures { result ≡ is_true_of top n memory.now }
{
    let mut first: usize = 0;
    let mut blocks = n;
    for e in 0..top {
        if !level_true(top, e, n, first, blocks, memory) {
            return false;
        }
        first += blocks as usize;
        blocks = Geometry::map_blocks(blocks) as u32;
    }
    true
}

// The memory of n leaves and two levels is true.
pub fn is_true(n: u32, memory: &[u8]) -> bool
    ensures { result ≡ is_true n memory.now }
{
    is_true_of(1, n, memory)
}

// The place of the first top block in a memory of n leaves and this top level.
fn top_place(top: u8, n: u32) -> usize
    ensures { result ≡ block_place (base top n) }
{
    match top {
        0 => 0,
        _ => Geometry::length_of(top - 1, n) as usize,
    }
}

// Every byte of the top blocks of a memory of n leaves and this top level is made zero; the blocks below stay as they are.
pub fn clear_of(top: u8, n: u32, memory: &mut [u8])
    ensures { memory.new ≡ cleared_of top n memory.old }
{
    let at = top_place(top, n);
    if at < memory.len() {
        block::clear(&mut memory[at..]);
    }
}

// Every map byte of a memory of n leaves and two levels is made zero; the leaves stay as they are.
pub fn clear_map(n: u32, memory: &mut [u8])
    ensures { memory.new ≡ cleared_map n memory.old }
{
    clear_of(1, n, memory)
}
