// Salvage of a damaged image: 02 E8. From the blocks that are sound a new sound image of version 2, and the list of what was left out.
// One walk over the blocks counts and one writes; the counting one is lent an output and a list that are not the caller's. No public function has a `requires`.
#![tactic(auto)]

ghost use Rattle.std.specs.Prelude.{◌≡◌, List, [], ◌∷◌, ◌++◌, true, ℕ, ◌+◌, ◌*◌, ◌%◌, ◌^◌, ◌≤◌, ◌<◌, length};
ghost use Rattle.laws.specs.Choice.{both};
ghost use Rattle.laws.specs.Bytes.{bytes, splice, put_w};
ghost use Rattle.laws.specs.Refusal.{refusal, refused_with, given};
ghost use Rattle.sums.specs.Check.{check_right, modulus_for};
ghost use Rattle.form.specs.Encode.{blocks_for};
ghost use Rattle.form.specs.Test.{count_of, block_sound, leaves_in};
ghost use Rattle.damaged.specs.Taken.{taken};
ghost use Rattle.salvage.specs.Salvage.{new_image, head_tests, told, left, salvaging, numbered, as_number, listed_number};
ghost use Rattle.salvage.specs.Walk.{closed_at, with_record, last_closed};

use geometry::Geometry;
use laws::Refusal;

// The list's numbers: 8 for each place, and 7 for a block that is not used.
const PLACE: usize = 8;

const UNUSED: usize = 7;

// What a salvage answers: the new image's length and the number of entries.
#[derive(Drop)]
pub struct Salvaged {
    pub length: u64,
    pub listed: u64,
}

// Where the walk over an image of n leaves has come to: the number of records kept, the leaf number after the last of them, and the number of entries listed.
#[derive(Drop)]
struct Progress {
    n: u32,
    kept: u32,
    low: u64,
    listed: usize,
    ghost few: { kept ≤ low },
    ghost below: { low ≤ n },
}

// Block j of an image, whose entries fit a number.
#[derive(Clone, Copy)]
struct Block<'a> {
    j: usize,
    bytes: &'a [u8],
    ghost long: { length bytes.now ≡ 512 },
    ghost near: { 8 * j + 8 < 2 ^ 64 },
}

// Block j of an output, in which `count` records stand, closed; where the output has no such block, nothing changes.
fn close_at(output: &mut [u8], j: u32, count: u16)
    ensures { output.new ≡ closed_at output.old j count }
{
    let at = image::BLOCK * (j as usize);
    if output.len() < image::BLOCK || output.len() - image::BLOCK < at {
        return;
    }
    writing::close_block(&mut output[at..at + image::BLOCK], j, count);
}

// Record p of the new image into its place; the seventh of a block closes it. Where it does not fit, nothing changes.
fn put_kept(output: &mut [u8], p: u32, leaf: u32, content: &[u8; Geometry::BLOCK_LEN])
    ensures { output.new ≡ with_record output.old p (bytes 4 leaf ++ content.now) }
{
    let j = 1 + p / 7;
    let slot = (p % 7) as usize;
    let at = image::BLOCK * (j as usize) + (image::RECORDS + image::RECORD * slot);
    writing::put_record(output, at, leaf, content);
    if slot == 6 {
        close_at(output, j, 7);
    }
}

// The last block closed, where p records do not fill it.
fn close_last(output: &mut [u8], p: u32)
    ensures { output.new ≡ last_closed output.old p }
{
    if !p.is_multiple_of(7) {
        close_at(output, 1 + p / 7, (p % 7) as u16);
    }
}

// An entry of the list; where there is no room, nothing changes.
fn put_listed(list: &mut [u64], at: usize, entry: u64)
    ensures { list.new ≡ put_w 1 list.old at (entry ∷ []) }
{
    if at < list.len() {
        list[at] = entry;
    }
}

impl Block<'_> {
    // The block is used: its check by the version, and it is sound.
    fn used(&self, version: u16, last: bool) -> bool
        ensures { result ≡ both (check_right (modulus_for version) self.now.bytes.now) (block_sound last self.now.j self.now.bytes.now) }
    {
        sums::check_right(version, self.bytes)
            && image::block_sound(last, self.j as u64, self.bytes)
    }
}

impl Progress {
    ghost use Rattle.damaged.specs.Taken.{take_record, take_records, take_block, taken};
    ghost use Rattle.salvage.specs.Goes.{Has, Goes, with_entry};

    // An entry onto the list.
    fn leave_out(&mut self, list: &mut [u64], entry: u64)
        requires { self.old.listed + 1 < 2 ^ 64 }
        ensures { (self.new.listed ≡ self.old.listed + 1) × ((output : List ℕ) → Goes (with_entry entry) self.old output list.old self.new output list.new) }
    {
        put_listed(list, self.listed, entry);
        self.listed += 1;
    }

    // Record i of a block: into the new image where it is good above the ones kept, else onto the list.
    fn take_record(&mut self, output: &mut [u8], list: &mut [u64], block: &Block<'_>, i: usize)
        requires { (i < 7) × (self.old.listed ≤ 8 * block.now.j) }
        ensures { (self.new.listed ≤ self.old.listed + 1) × Goes (λ t. take_record self.old.n block.now.j block.now.bytes.now t i) self.old output.old list.old self.new output.new list.new }
    {
        let leaf = block::four_at(block.bytes, image::RECORDS + image::RECORD * i);
        let content = block::read_block(block.bytes, image::CONTENT + image::RECORD * i);
        if image::record_good(self.n, self.low, leaf, &content) {
            put_kept(output, self.kept, leaf, &content);
            self.kept += 1;
            self.low = u64::from(leaf) + 1;
        } else {
            self.leave_out(list, (PLACE * block.j + i) as u64);
        }
    }

    // The first `count` records of a block.
    fn take_records(&mut self, output: &mut [u8], list: &mut [u64], block: &Block<'_>, count: usize)
        requires { (count ≤ 7) × (self.old.listed + 7 ≤ 8 * block.now.j) }
        ensures { (self.new.listed ≤ self.old.listed + count) × Goes (λ t. take_records self.old.n block.now.j block.now.bytes.now t count) self.old output.old list.old self.new output.new list.new }
    {
        for i in 0..count {
            self.take_record(output, list, block, i);
        }
    }

    // A block: its records where it is used, else onto the list.
    fn take_block(&mut self, output: &mut [u8], list: &mut [u64], block: &Block<'_>, sound: bool)
        requires { (sound ≡ true → count_of block.now.bytes.now ≤ 7) × (self.old.listed + 7 ≤ 8 * block.now.j) }
        ensures { (self.new.listed ≤ self.old.listed + 7) × Goes (take_block self.old.n block.now.j sound block.now.bytes.now) self.old output.old list.old self.new output.new list.new }
    {
        if sound {
            let count = usize::from(sums::two_at(block.bytes, 6));
            self.take_records(output, list, block, count);
        } else {
            self.leave_out(list, (PLACE * block.j + UNUSED) as u64);
        }
    }

    // The walk over all blocks of an image of whole blocks.
    fn over(image: &[u8], output: &mut [u8], list: &mut [u64]) -> Self
        requires { (0 < length image.now) × (length image.now % 512 ≡ 0) }
        ensures { (result.n ≡ leaves_in image.now) × Has output.old list.old (taken image.now) result output.new list.new }
    {
        let whole = image.len() / image::BLOCK;
        let version = image::version_in(image);
        let mut walk = Progress {
            n: image::leaves_in(image),
            kept: 0,
            low: 0,
            listed: 0,
        };
        for j in 1..whole {
            let at = image::BLOCK * j;
            let block = Block {
                j,
                bytes: &image[at..at + image::BLOCK],
            };
            let sound = block.used(version, j + 1 == whole);
            walk.take_block(output, list, &block, sound);
        }
        walk
    }
}

// The test of the head.
fn test_head(image: &[u8]) -> Result<(), Refusal>
    ensures { refused_with result ≡ refusal (head_tests image.now) }
{
    if image.is_empty() || !image.len().is_multiple_of(image::BLOCK) {
        return Err(Refusal::WrongCheck);
    }
    let head = &image[0..image::BLOCK];
    if !sums::check_right(image::version_in(image), head) {
        return Err(Refusal::WrongCheck);
    }
    if !image::head_sound(head) {
        return Err(Refusal::OtherRule);
    }
    Ok(())
}

// The walk that only counts.
fn count(image: &[u8]) -> Progress
    requires { (0 < length image.now) × (length image.now % 512 ≡ 0) }
    ensures { (result.kept ≤ leaves_in image.now) × (result.kept ≡ length (taken image.now).kept) × (result.listed ≡ length (taken image.now).listed) }
{
    let mut output = [0u8; 1];
    let mut list = [0u64; 1];
    Progress::over(image, &mut output, &mut list)
}

// The new image and the list, into an output and a list that have room.
fn put_salvaged(image: &[u8], output: &mut [u8], list: &mut [u64], kept: u32)
    requires { (0 < length image.now) × (length image.now % 512 ≡ 0) × (kept ≡ length (taken image.now).kept) × (512 * (1 + blocks_for kept) ≤ length output.old) × (length (taken image.now).listed ≤ length list.old) }
    ensures { (output.new ≡ splice output.old 0 (new_image image.now)) × (list.new ≡ splice list.old 0 (taken image.now).listed) }
{
    writing::put_head(&mut output[0..image::BLOCK], image::leaves_in(image), kept);
    Progress::over(image, output, list);
    close_last(output, kept);
}

// Salvage: the new image in front of the output, the list in front of the list, and both their lengths; or the refusal (10, 11, 9), and nothing changes.
pub fn salvage(image: &[u8], output: &mut [u8], list: &mut [u64]) -> Result<Salvaged, Refusal>
    ensures { left (told result) output.new list.new ≡ salvaging image.now output.old list.old }
{
    test_head(image)?;
    let counted = count(image);
    let long = writing::length_for(counted.kept);
    if output.len() < long || list.len() < counted.listed {
        return Err(Refusal::NoRoom);
    }
    put_salvaged(image, output, list, counted.kept);
    Ok(Salvaged {
        length: long as u64,
        listed: counted.listed as u64,
    })
}

// Salvage with one number for its answer: the new image's length.
pub fn salvage_length(image: &[u8], output: &mut [u8], list: &mut [u64]) -> Result<u64, Refusal>
    ensures { (numbered (given result) output.new list.new ≡ as_number (salvaging image.now output.old list.old)) × (refused_with result ≡ (salvaging image.now output.old list.old).answer.refusal) }
{
    let salvaged = salvage(image, output, list)?;
    Ok(salvaged.length)
}

// The number of entries that a salvage of the image lists, or the refusal of its head.
pub fn salvage_listed(image: &[u8]) -> Result<u64, Refusal>
    ensures { (given result ≡ listed_number image.now) × (refused_with result ≡ refusal (head_tests image.now)) }
{
    test_head(image)?;
    let counted = count(image);
    Ok(counted.listed as u64)
}
