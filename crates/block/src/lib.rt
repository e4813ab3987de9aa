// Blocks, numbers of four bytes, groups, bits and zero bytes in lent rows of bytes: 01 "The tag memory".
// No public function has a `requires`: a read of what is not there gives zero, a write of it changes nothing.
#![tactic(auto)]

ghost use Rattle.std.specs.Prelude.{◌≡◌, ◌+◌, ◌*◌, ◌^◌, ◌≤◌, ◌<◌, ◌↔◌, IsTrue, length, get_or, replicate};
ghost use Rattle.laws.specs.Choice.{pick};
ghost use Rattle.laws.specs.Bytes.{part, splice, fits, put_w, value, bytes, number_at};
ghost use Rattle.laws.specs.Bits.{bit_of, with_bit};
ghost use Rattle.block.specs.Block.{block_or0, group_at, put_group, bit_at, put_bit, all_zero};

use geometry::Geometry;

// The row has n bytes from `at`.
fn has(row: &[u8], at: usize, n: usize) -> bool
    ensures { IsTrue result ↔ (at + n ≤ length row.now) }
{
    n <= row.len() && at <= row.len() - n
}

// The number whose four bytes begin at `at`.
fn word_at(row: &[u8], at: usize) -> u32
    requires { at + 4 ≤ length row.now }
    ensures { result ≡ number_at 4 row.now at }
{
    u32::from_le_bytes([row[at], row[at + 1], row[at + 2], row[at + 3]])
}

// The byte at `at`; 0 where there is none.
fn byte_at(row: &[u8], at: usize) -> u8
    ensures { result ≡ get_or row.now at 0 }
{
    row.get(at).copied().unwrap_or(0)
}

// The number whose four bytes begin at `at`; a byte that is not there counts 0.
pub fn number_at(row: &[u8], at: usize) -> u32
    ensures { result ≡ value (part row.now at 4) }
{
    if row.len() <= at {
        return 0;
    }
    if Geometry::GROUP_LEN <= row.len() - at {
        return word_at(row, at);
    }
    u32::from_le_bytes([
        row[at],
        byte_at(row, at + 1),
        byte_at(row, at + 2),
        byte_at(row, at + 3),
    ])
}

// The number v into the four bytes from `at`.
fn put_word(row: &mut [u8], at: usize, v: u32)
    requires { at + 4 ≤ length row.old }
    ensures { row.new ≡ splice row.old at (bytes 4 v) }
{
    row[at..at + 4].copy_from_slice(&v.to_le_bytes());
}

// The 16 bytes of `from` from `at` to the same places of `to`. All four words are read before one is put: so they move as one.
fn copy_words(to: &mut [u8], from: &[u8], at: usize)
    requires { (at + 16 ≤ length to.old) × (at + 16 ≤ length from.now) }
    ensures { to.new ≡ splice to.old at (part from.now at 16) }
{
    let a = word_at(from, at);
    let b = word_at(from, at + 4);
    let c = word_at(from, at + 8);
    let d = word_at(from, at + 12);
    put_word(to, at, a);
    put_word(to, at + 4, b);
    put_word(to, at + 8, c);
    put_word(to, at + 12, d);
}

// All of one block into another, 16 bytes at a time.
// Kept: by words. Of two rows that are lent `copy_from_slice` first asks whether they overlap; by way of an array, a block that is read and put stands on the stack, and by words in registers.
fn copy(to: &mut [u8], from: &[u8])
    requires { (length to.old ≡ 64) × (length from.now ≡ 64) }
    ensures { to.new ≡ from.now }
{
    for i in 0..4 {
        copy_words(to, from, 16 * i);
    }
}

// The block into memory's part from `at`; where it does not fit, memory stays as it was.
pub fn write_block(memory: &mut [u8], at: usize, block: &[u8; Geometry::BLOCK_LEN])
    ensures { memory.new ≡ put_w 64 memory.old at block.now }
{
    if has(memory, at, Geometry::BLOCK_LEN) {
        copy(&mut memory[at..at + Geometry::BLOCK_LEN], block);
    }
}

// The block at `at`; zeros where its bytes are not all there.
pub fn read_block(memory: &[u8], at: usize) -> [u8; Geometry::BLOCK_LEN]
    ensures { result ≡ block_or0 memory.now at }
{
    let mut block = [0u8; Geometry::BLOCK_LEN];
    if has(memory, at, Geometry::BLOCK_LEN) {
        copy(&mut block, &memory[at..at + Geometry::BLOCK_LEN]);
    }
    block
}

// The block of `row` from `from` into memory's part from `at`; where either has not 64 bytes there, memory stays as it was.
pub fn copy_block(memory: &mut [u8], at: usize, row: &[u8], from: usize)
    ensures { memory.new ≡ pick (fits row.now from 64) (put_w 64 memory.old at (part row.now from 64)) memory.old }
{
    if has(row, from, Geometry::BLOCK_LEN) && has(memory, at, Geometry::BLOCK_LEN) {
        copy(
            &mut memory[at..at + Geometry::BLOCK_LEN],
            &row[from..from + Geometry::BLOCK_LEN],
        );
    }
}

// The number whose four bytes begin at `at`; 0 where they are not all there.
pub fn four_at(row: &[u8], at: usize) -> u32
    ensures { result ≡ number_at 4 row.now at }
{
    if has(row, at, 4) { word_at(row, at) } else { 0 }
}

// The number v into its four bytes from `at`; where they do not fit, nothing changes.
pub fn put_four(row: &mut [u8], at: usize, v: u32)
    ensures { row.new ≡ put_w 4 row.old at (bytes 4 v) }
{
    if has(row, at, 4) {
        put_word(row, at, v);
    }
}

// The group at `at`; 0 where its bytes are not all there.
pub fn group_at(row: &[u8], at: usize) -> u32
    ensures { result ≡ group_at row.now at }
{
    four_at(row, at)
}

// Group v into its bytes from `at`; where they do not fit, nothing changes.
pub fn put_group(row: &mut [u8], at: usize, v: u32)
    ensures { row.new ≡ put_group row.old at v }
{
    put_four(row, at, v);
}

// Every byte is zero: no bit is 1 in any of them.
pub fn all_zero(row: &[u8]) -> bool
    ensures { result ≡ all_zero row.now }
{
    row.iter().fold(0, |any: u8, x| any | *x) == 0
}

// Every byte is made zero.
pub fn clear(row: &mut [u8])
    ensures { row.new ≡ replicate (length row.old) 0 }
{
    row.fill(0);
}

// Bit k of a byte, bit 0 lowest; 0 past the last.
pub fn bit_of(x: u8, k: u32) -> u8
    ensures { result ≡ bit_of x k }
{
    if Geometry::BYTE_BITS <= k {
        return 0;
    }
    (x >> k) % 2
}

// Bit k of the byte at `at`; 0 where there is no such byte.
pub fn bit_at(row: &[u8], at: usize, k: u32) -> u8
    ensures { result ≡ bit_at row.now at k }
{
    bit_of(byte_at(row, at), k)
}

// The number of a byte's bit k alone.
fn power(k: u32) -> u8
    requires { k < 8 }
    ensures { result ≡ 2 ^ k }
{
    1u8 << k
}

// A byte with its bit k made v.
fn with_bit(x: u8, k: u32, v: bool) -> u8
    requires { k < 8 }
    ensures { result ≡ with_bit x k (pick v 1 0) }
{
    let old = bit_of(x, k);
    if v {
        if old == 1 {
            return x;
        }
        return x + power(k);
    }
    if old == 1 {
        return x - power(k);
    }
    x
}

// Bit k of the byte at `at` made v; nothing changes where there is no such bit.
pub fn put_bit(row: &mut [u8], at: usize, k: u32, v: bool)
    ensures { row.new ≡ put_bit row.old at k (pick v 1 0) }
{
    if k < Geometry::BYTE_BITS && at < row.len() {
        let x = with_bit(row[at], k, v);
        row[at] = x;
    }
}
