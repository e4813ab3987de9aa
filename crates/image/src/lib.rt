// The image test: 01 "Archive image" and the refusals 10 and 11, of versions 1 and 2 (02 E2). The definitions stand in `form`.
// No public function has a `requires`.
#![tactic(auto)]

ghost use Rattle.std.specs.Prelude.{◌≡◌, ◌*◌, ◌/◌, ◌%◌, ◌-◌, ◌≤◌, ◌<◌, length, replicate};
ghost use Rattle.std.specs.Bool.{then_some};
ghost use Rattle.laws.specs.Choice.{both};
ghost use Rattle.laws.specs.Bytes.{put_w};
ghost use Rattle.laws.specs.Refusal.{refused_with};
ghost use Rattle.laws.specs.Scan.{all};
ghost use Rattle.form.specs.Test.{count_of, unused_zero, head_sound, count_right, block_sound, version_in, leaves_in, recorded_in, record_count, record_in, lowest, good_above, good_record, form_in, image_test};

use geometry::Geometry;
use laws::Refusal;

// An image block's bytes, where its records begin, where the first one's 64 bytes begin, where its check stands; a record's bytes, and the records of a full block.
pub const BLOCK: usize = 512;

pub const RECORDS: usize = 8;

pub const CHECK: usize = 508;

pub const CONTENT: usize = 12;

pub const RECORD: usize = 68;

pub const FULL: usize = 7;

// The bytes of a block from `at` up to its check are zero.
fn unused_zero(block: &[u8], at: usize) -> bool
    requires { (length block.now ≡ 512) × (at ≤ 508) }
    ensures { result ≡ unused_zero block.now at }
{
    block::all_zero(&block[at..CHECK])
}

// The head is sound by its version's form, its m apart.
pub fn head_sound(block: &[u8]) -> bool
    ensures { result ≡ head_sound (form_in block.now) block.now }
{
    block.len() == BLOCK
        && block::four_at(block, 0) == 0
        && sums::two_at(block, 4) == 1
        && matches!(sums::two_at(block, 6), 1 | 2)
        && Geometry::in_limits(u64::from(block::four_at(block, 8)))
        && unused_zero(block, 16)
}

// A block's count of records is right: 7, in the last block 1 to 7.
pub fn count_right(last: bool, c: u16) -> bool
    ensures { result ≡ count_right last c }
{
    if last { matches!(c, 1..=7) } else { c == 7 }
}

// Record block j is sound.
pub fn block_sound(last: bool, j: u64, block: &[u8]) -> bool
    ensures { result ≡ block_sound last j block.now }
{
    if block.len() != BLOCK {
        return false;
    }
    let count = sums::two_at(block, 6);
    count_right(last, count)
        && u64::from(block::four_at(block, 0)) == j
        && sums::two_at(block, 4) == 2
        && unused_zero(block, RECORDS + RECORD * usize::from(count))
}

// The number of records, by the number of blocks and the last one's count.
fn record_count(image: &[u8]) -> usize
    ensures { result ≡ record_count image.now }
{
    let whole = image.len() / BLOCK;
    if whole <= 1 {
        return 0;
    }
    let at = BLOCK * (whole - 1);
    FULL * (whole - 2) + usize::from(sums::two_at(&image[at..at + BLOCK], 6))
}

// A record of that leaf and those bytes is good above the leaves below `low`.
pub fn record_good(n: u32, low: u64, leaf: u32, content: &[u8]) -> bool
    ensures { result ≡ good_above n low (record { leaf = leaf; content = content.now }) }
{
    low <= u64::from(leaf) && leaf < n && !block::all_zero(content)
}

// The first `count` records of a block, after records that are all below leaf `low`: the leaf number after that of the last; none where one is not good.
fn records_good(n: u32, low: u64, block: &[u8], count: usize) -> Option<u64>
    requires { (length block.now ≡ 512) × (count ≤ 7) }
    ensures { result ≡ then_some (all (good_record n low (record_in block.now)) count) (lowest low (record_in block.now) count) }
{
    let mut next = low;
    for i in 0..count {
        let leaf = block::four_at(block, RECORDS + RECORD * i);
        let at = CONTENT + RECORD * i;
        if !record_good(n, next, leaf, &block[at..at + Geometry::BLOCK_LEN]) {
            return None;
        }
        next = u64::from(leaf) + 1;
    }
    Some(next)
}

// Record block j with its records, after records that are all below leaf `low`: the leaf number after that of its last; none where a rule is broken.
fn block_kept(n: u32, low: u64, last: bool, j: u64, block: &[u8]) -> Option<u64>
    requires { length block.now ≡ 512 }
    ensures { result ≡ then_some (both (block_sound last j block.now) (all (good_record n low (record_in block.now)) (count_of block.now))) (lowest low (record_in block.now) (count_of block.now)) }
{
    if !block_sound(last, j, block) {
        return None;
    }
    records_good(n, low, block, usize::from(sums::two_at(block, 6)))
}

// The version in the head of an image.
pub fn version_in(image: &[u8]) -> u16
    ensures { result ≡ version_in image.now }
{
    sums::two_at(image, 6)
}

// n in the head of an image.
pub fn leaves_in(image: &[u8]) -> u32
    ensures { result ≡ leaves_in image.now }
{
    block::four_at(image, 8)
}

// m in the head of an image.
pub fn recorded_in(image: &[u8]) -> u32
    ensures { result ≡ recorded_in image.now }
{
    block::four_at(image, 12)
}

// The test of an image of whole blocks, one block after the other: 10 at the first wrong check; after the last 11 where another rule is broken.
fn test_blocks(image: &[u8]) -> Result<(), Refusal>
    requires { (0 < length image.now) × (length image.now % 512 ≡ 0) }
    ensures { refused_with result ≡ image_test image.now }
{
    let head = &image[0..BLOCK];
    let version = version_in(image);
    if !sums::check_right(version, head) {
        return Err(Refusal::WrongCheck);
    }
    let n = leaves_in(image);
    let whole = image.len() / BLOCK;
    let mut kept = head_sound(head).then_some(0);
    for j in 1..whole {
        let at = BLOCK * j;
        let block = &image[at..at + BLOCK];
        if !sums::check_right(version, block) {
            return Err(Refusal::WrongCheck);
        }
        if let Some(low) = kept {
            kept = block_kept(n, low, j + 1 == whole, j as u64, block);
        }
    }
    if kept.is_none() || recorded_in(image) as usize != record_count(image) {
        return Err(Refusal::OtherRule);
    }
    Ok(())
}

// The image test: nothing is refused, or 10 or 11.
pub fn image_test(image: &[u8]) -> Result<(), Refusal>
    ensures { refused_with result ≡ image_test image.now }
{
    if image.is_empty() || !image.len().is_multiple_of(BLOCK) {
        return Err(Refusal::WrongCheck);
    }
    test_blocks(image)
}

// Zeros into `count` bytes from `at`; where they do not fit, nothing changes.
pub fn clear(row: &mut [u8], at: usize, count: usize)
    ensures { row.new ≡ put_w count row.old at (replicate count 0) }
{
    if row.len() < count || row.len() - count < at {
        return;
    }
    row[at..at + count].fill(0);
}
