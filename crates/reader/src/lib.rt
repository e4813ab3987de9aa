// Reading an image one record at a time: 01 "Archive image", the reader that keeps the lent image together with its place.
// No public function has a `requires`: an image need not be tested, and a place is any number.
#![tactic(auto)]

ghost use Rattle.std.specs.Prelude.{◌≡◌, ◌*◌, ◌-◌};
ghost use Rattle.std.specs.Iterator.{at_most};
ghost use Rattle.laws.specs.Refusal.{refused_with};
ghost use Rattle.image.specs.Test.{image_test, whole_blocks};
ghost use Rattle.image.specs.Calls.{opened_image};
ghost use Rattle.reader.specs.Read.{reading_at, reading_of, opened_reader};
ghost use Rattle.reader.specs.Told.{image_of, place_of, started, NextRecord};

use geometry::Geometry;
use laws::Refusal;

// A lent image with the number of its records that were read.
#[derive(Drop)]
pub struct Reader<'a> {
    pub image: &'a [u8],
    pub place: u64,
}

// What stands at a place: a record's leaf, where its 64 bytes begin in the image, and the place after it.
#[derive(Clone, Copy)]
pub struct Found {
    pub leaf: u64,
    pub start: u64,
    pub next: u64,
}

// The next record of a reader: its leaf, where its 64 bytes begin in the image, and these as a part of it.
#[derive(Drop)]
pub struct Record<'a> {
    pub leaf: u64,
    pub start: u64,
    pub content: &'a [u8],
}

// Where a reader starts: the length of its image, and its place.
#[derive(Clone, Copy)]
pub struct Start {
    pub length: u64,
    pub place: u64,
}

// What stands at a place of an image; none at the end.
pub fn read_at(image: &[u8], place: u64) -> Option<Found>
    ensures { reading_of place result ≡ reading_at image.now place }
{
    let whole = (image.len() / image::BLOCK) as u64;
    let number = 1 + place / 7;
    if whole <= number {
        return None;
    }
    let at = image::BLOCK * (number as usize);
    let block = &image[at..at + image::BLOCK];
    let slot = (place % 7) as usize;
    let count = usize::from(sums::two_at(block, 6));
    if count <= slot {
        return None;
    }
    let leaf = block::four_at(block, image::RECORDS + image::RECORD * slot);
    let start = at + (image::CONTENT + image::RECORD * slot);
    Some(Found {
        leaf: u64::from(leaf),
        start: start as u64,
        next: place + 1,
    })
}

// A reader of an accepted image, at place 0; refused with 10 or 11, there is none.
pub fn open<'a>(image: &'a [u8]) -> Result<Reader<'a>, Refusal>
    ensures { (image_of result ≡ opened_image image.now) × (place_of result ≡ 0) × (refused_with result ≡ image_test image.now) }
{
    image::image_test(image)?;
    Ok(Reader { image, place: 0 })
}

impl<'a> Iterator for Reader<'a> {
    type Item = Record<'a>;

    ghost next_gives = { NextRecord };

    ghost remaining = { λ s. at_most (7 * whole_blocks s.image.now - s.place) };

    // The next record, and the reader moves on; at the end there is none, and it stays as it was.
    fn next(&mut self) -> Option<Record<'a>> {
        let found = read_at(self.image, self.place)?;
        let at = found.start as usize;
        let content = &self.image[at..at + Geometry::BLOCK_LEN];
        self.place = found.next;
        Some(Record {
            leaf: found.leaf,
            start: found.start,
            content,
        })
    }
}

// Opening a reader, by what it then is: callers hand over plain bytes.
pub fn opening(image: &[u8]) -> Result<Start, Refusal>
    ensures { started result ≡ opened_reader image.now }
{
    let reader = open(image)?;
    Ok(Start {
        length: reader.image.len() as u64,
        place: reader.place,
    })
}

// The record that a reader at a place of an image finds, and the place that it then has: callers hand over plain bytes.
pub fn record_at(image: &[u8], place: u64) -> Option<Found>
    ensures { reading_of place result ≡ reading_at image.now place }
{
    let mut reader = Reader { image, place };
    let record = reader.next()?;
    Some(Found {
        leaf: record.leaf,
        start: record.start,
        next: reader.place,
    })
}
