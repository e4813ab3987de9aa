// Restoring a memory from an image: 01 "Archive image", "Restoring fills all of memory: recorded leaves and their bits, zeros elsewhere".
// No public function has a `requires`.
#![tactic(auto)]

ghost use Rattle.std.specs.Prelude.{◌≡◌, ◌+◌, ◌*◌, ◌/◌, ◌≤◌, ◌<◌, length};
ghost use Rattle.laws.specs.Refusal.{refused_with};
ghost use Rattle.geometry.specs.TagMemory.{memory_length};
ghost use Rattle.form.specs.Test.{whole_blocks, record_in, record_at, recorded_in};
ghost use Rattle.form.specs.Calls.{put_record, records_in, memory_of, restoring_refusal, restored};

use geometry::Geometry;
use laws::Refusal;

// Record i of a block into a memory of n leaves: its leaf and its bit.
fn put_record(n: u32, memory: &mut [u8], row: &[u8], i: usize)
    requires { (length row.now ≡ 512) × (i < 7) }
    ensures { memory.new ≡ put_record n memory.old (record_in row.now i) }
{
    let leaf = block::four_at(row, image::RECORDS + image::RECORD * i);
    block::copy_block(
        memory,
        Geometry::block_place(leaf),
        row,
        image::CONTENT + image::RECORD * i,
    );
    block::put_bit(
        memory,
        Geometry::map_place(n, leaf),
        Geometry::map_bit_of(leaf),
        true,
    );
}

// Record p, which the image has, into a memory of n leaves.
fn put_record_at(n: u32, memory: &mut [u8], image: &[u8], p: usize)
    requires { p / 7 + 1 < whole_blocks image.now }
    ensures { memory.new ≡ put_record n memory.old (record_at image.now p) }
{
    let at = image::BLOCK * (1 + p / image::FULL);
    put_record(n, memory, &image[at..at + image::BLOCK], p % image::FULL);
}

// The m records of an image, which it has, into a memory of n leaves; zeros elsewhere.
fn put_records(n: u32, memory: &mut [u8], image: &[u8], m: usize)
    requires { (length memory.old ≡ memory_length n) × (m ≡ recorded_in image.now) × (m + 7 ≤ 7 * whole_blocks image.now) }
    ensures { memory.new ≡ memory_of n (records_in image.now) }
{
    memory.fill(0);
    for p in 0..m {
        put_record_at(n, memory, image, p);
    }
}

// Restoring; refused with 10, 11 or 2, the memory stays as it was.
pub fn restore(image: &[u8], memory: &mut [u8]) -> Result<(), Refusal>
    ensures { (refused_with result ≡ restoring_refusal image.now (length memory.old)) × (memory.new ≡ restored image.now memory.old) }
{
    image::image_test(image)?;
    let n = image::leaves_in(image);
    if memory.len() as u64 != Geometry::memory_length(n) {
        return Err(Refusal::OtherLength);
    }
    put_records(n, memory, image, image::recorded_in(image) as usize);
    Ok(())
}
