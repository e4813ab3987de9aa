// Writing an image, of version 2, from a true memory: 01 "Archive image", "Writing reads a true memory", and 02 E2.
// A block is written over any records: `put_record` puts each in its place, `close_block` makes the row their block. No public function has a `requires`.
#![tactic(auto)]

ghost use Rattle.std.specs.Prelude.{◌≡◌, true, ◌+◌, ◌*◌, ◌/◌, ◌-◌, ◌≤◌, ◌<◌, length, ◌++◌};
ghost use Rattle.laws.specs.Bytes.{splice, put_w, bytes};
ghost use Rattle.geometry.specs.TagMemory.{memory_length};
ghost use Rattle.memory.specs.PlainReading.{leaf_bit};
ghost use Rattle.memory.specs.True.{is_true};
ghost use Rattle.form.specs.Encode.{version2, records_bytes, headed, block_front, closed, block_of, next7, record_blocks, blocks_for, records_below, records_of, image_of};
ghost use Rattle.form.specs.Calls.{writing_refusal, writing_answer, written};
ghost use Rattle.laws.specs.Refusal.{refused_with, given};

use geometry::Geometry;
use laws::Refusal;

// A memory of n leaves, of the length that is theirs, with the number of leaves with bit 1.
#[derive(Clone, Copy)]
struct Source<'a> {
    n: u32,
    memory: &'a [u8],
    m: u32,
    ghost limit: { n ≤ 262144 },
    ghost sized: { length memory.now ≡ memory_length n },
    ghost counted: { m ≡ length (records_of n memory.now) },
}

// The first leaf from k on with bit 1, or n.
fn next_marked(n: u32, memory: &[u8], k: u32) -> u32
    requires { (k ≤ n) × (length memory.now ≡ memory_length n) }
    ensures { (k ≤ result) × (result ≤ n) × (records_below n memory.now result ≡ records_below n memory.now k) × (result < n → leaf_bit n memory.now result ≡ 1) }
{
    memory::next_marked(n, memory, k, n)
}

// The number of leaves with bit 1 of a true memory: the ones of its map, a word at a time.
// Kept: beside tagged's, which counts a part of the map, by bytes masked at both ends; one for both would be slower here.
fn count_marked(n: u32, memory: &[u8]) -> u32
    requires { (n ≤ 262144) × (length memory.now ≡ memory_length n) × (is_true n memory.now ≡ true) }
    ensures { result ≡ length (records_of n memory.now) }
{
    let mut m: u32 = 0;
    for i in 0..n.div_ceil(memory::WORD_BITS) {
        m += memory::map_word(n, memory, i).count_ones();
    }
    m
}

// A record, its leaf number and 64 bytes, into a row from `at`; where it does not fit, nothing changes.
pub fn put_record(row: &mut [u8], at: usize, leaf: u32, content: &[u8; Geometry::BLOCK_LEN])
    ensures { row.new ≡ put_w 68 row.old at (bytes 4 leaf ++ content.now) }
{
    if row.len() < image::RECORD || row.len() - image::RECORD < at {
        return;
    }
    block::put_four(row, at, leaf);
    block::write_block(row, at + 4, content);
}

// The front of record block j.
fn put_front(row: &mut [u8], j: u32, count: u16)
    requires { length row.old ≡ 512 }
    ensures { row.new ≡ splice row.old 0 (block_front j count) }
{
    block::put_four(row, 0, j);
    sums::put_two(row, 4, 2);
    sums::put_two(row, 6, count);
}

// The row, in which `count` records stand in their places, made record block j: its front, zeros after the records, the check. A row that is no block stays as it was, and so does one with more than 7 records.
pub fn close_block(row: &mut [u8], j: u32, count: u16)
    ensures { row.new ≡ closed 65536 row.old j count }
{
    if row.len() != image::BLOCK || 7 < count {
        return;
    }
    put_front(row, j, count);
    let at = image::RECORDS + image::RECORD * usize::from(count);
    image::clear(row, at, image::CHECK - at);
    sums::seal(row);
}

// The row made the head; a row that is no block stays as it was.
pub fn put_head(row: &mut [u8], n: u32, m: u32)
    ensures { row.new ≡ headed version2 row.old n m }
{
    if row.len() != image::BLOCK {
        return;
    }
    block::put_four(row, 0, 0);
    sums::put_two(row, 4, 1);
    sums::put_two(row, 6, 2);
    block::put_four(row, 8, n);
    block::put_four(row, 12, m);
    image::clear(row, 16, 492);
    sums::seal(row);
}

impl Source<'_> {
    // The next `count` records into a block, from leaf k on. Gives the leaf after the last one.
    fn put_records(&self, row: &mut [u8], count: usize, k: u32) -> u32
        requires { (length row.old ≡ 512) × (count ≤ 7) × (k ≤ self.now.n) × (length (records_below self.now.n self.now.memory.now k) + count ≤ self.now.m) }
        ensures { (row.new ≡ splice row.old 8 (records_bytes (records_of self.now.n self.now.memory.now) (length (records_below self.now.n self.now.memory.now k)) count)) × (result ≤ self.now.n) × (length (records_below self.now.n self.now.memory.now result) ≡ length (records_below self.now.n self.now.memory.now k) + count) }
    {
        let mut next = k;
        for i in 0..count {
            let found = next_marked(self.n, self.memory, next);
            let leaf = block::read_block(self.memory, Geometry::block_place(found));
            put_record(row, image::RECORDS + image::RECORD * i, found, &leaf);
            next = found + 1;
        }
        next
    }

    // Record block j with the next `count` records, from leaf k on. Gives the leaf after the last one.
    fn put_block(&self, row: &mut [u8], j: u32, count: u16, k: u32) -> u32
        requires { (length row.old ≡ 512) × (count ≤ 7) × (k ≤ self.now.n) × (length (records_below self.now.n self.now.memory.now k) + count ≤ self.now.m) }
        ensures { (row.new ≡ block_of 65536 j (records_of self.now.n self.now.memory.now) (length (records_below self.now.n self.now.memory.now k)) count) × (result ≤ self.now.n) × (length (records_below self.now.n self.now.memory.now result) ≡ length (records_below self.now.n self.now.memory.now k) + count) }
    {
        let next = self.put_records(row, usize::from(count), k);
        close_block(row, j, count);
        next
    }

    // The record blocks, from block 1 on.
    fn put_blocks(&self, output: &mut [u8])
        requires { 512 * (1 + blocks_for self.now.m) ≤ length output.old }
        ensures { output.new ≡ splice output.old 512 (record_blocks 65536 (records_of self.now.n self.now.memory.now) (blocks_for self.now.m)) }
    {
        let mut k = 0;
        for j in 0..self.m.div_ceil(7) {
            let count = (self.m - 7 * j).min(7) as u16;
            let at = image::BLOCK * (j as usize + 1);
            k = self.put_block(&mut output[at..at + image::BLOCK], j + 1, count, k);
        }
    }

    // The image, into an output that has room.
    fn put_image(&self, output: &mut [u8])
        requires { 512 * (1 + blocks_for self.now.m) ≤ length output.old }
        ensures { output.new ≡ splice output.old 0 (image_of self.now.n self.now.memory.now) }
    {
        put_head(&mut output[0..image::BLOCK], self.n, self.m);
        self.put_blocks(output);
    }
}

// The length of an image of m records.
pub fn length_for(m: u32) -> usize
    ensures { result ≡ 512 * (1 + blocks_for m) }
{
    image::BLOCK * (1 + (m as usize).div_ceil(image::FULL))
}

// Writing: the image's length, or the refusal (1, 2, 3, 9); the output past the image stays as it was, and all of it where refused.
pub fn write_image(n: u64, memory: &[u8], output: &mut [u8]) -> Result<u64, Refusal>
    ensures { (given result ≡ writing_answer n memory.now (length output.old)) × (refused_with result ≡ writing_refusal n memory.now (length output.old)) × (output.new ≡ written n memory.now output.old) }
{
    if !Geometry::in_limits(n) {
        return Err(Refusal::OutsideLimits);
    }
    let leaves = n as u32;
    if memory.len() as u64 != Geometry::memory_length(leaves) {
        return Err(Refusal::OtherLength);
    }
    if !memory::is_true(leaves, memory) {
        return Err(Refusal::NotTrue);
    }
    let m = count_marked(leaves, memory);
    let long = length_for(m);
    if output.len() < long {
        return Err(Refusal::NoRoom);
    }
    let source = Source {
        n: leaves,
        memory,
        m,
    };
    source.put_image(output);
    Ok(long as u64)
}
