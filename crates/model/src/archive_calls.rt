// 01 "Archive image" for C: writing and restoring an image, and its reader, opened and one record at a time.
ghost use Rattle.std.specs.Prelude.{◌≡◌, length};
ghost use Rattle.image.specs.Calls.{writing_answer, written, restored};
ghost use Rattle.model.specs.Archive.{restoring_answer, reader_opened, record_read};

use laws::Refusal;

// Writing: the image's length, or 4,294,967,296 plus the refusal.
#[unsafe(no_mangle)]
pub extern "C" fn tag_write_image(n: u64, memory: &[u8], output: &mut [u8]) -> u64
    ensures { (result ≡ writing_answer n memory.now (length output.old)) × (output.new ≡ written n memory.now output.old) }
{
    laws::given(writing::write_image(n, memory, output))
}

// Restoring: 0, or 4,294,967,296 plus the refusal.
#[unsafe(no_mangle)]
pub extern "C" fn tag_restore(image: &[u8], memory: &mut [u8]) -> u64
    ensures { (result ≡ restoring_answer image.now (length memory.old)) × (memory.new ≡ restored image.now memory.old) }
{
    laws::given_done(restoring::restore(image, memory))
}

// Opening a reader: 0, or 4,294,967,296 plus the refusal; the two words are the length of its image and its place, both 0 if the image is refused.
#[unsafe(no_mangle)]
pub extern "C" fn tag_open_reader(image: &[u8], words: &mut [u64]) -> u64
    ensures { (result, words.new) ≡ reader_opened image.now words.old }
{
    if words.len() != 2 {
        return laws::given_done(Err(Refusal::OtherLength));
    }
    match reader::opening(image) {
        Ok(start) => {
            words.copy_from_slice(&[start.length, start.place]);
            0
        }
        Err(refusal) => {
            words.fill(0);
            laws::given_done(Err(refusal))
        }
    }
}

// What a reader finds at place p of an image: 0 at the end, else 1, and the two words are the record's leaf and the place of its 64 bytes; or 4,294,967,296 plus the refusal.
#[unsafe(no_mangle)]
pub extern "C" fn tag_record(image: &[u8], p: u64, words: &mut [u64]) -> u64
    ensures { (result, words.new) ≡ record_read image.now p words.old }
{
    if words.len() != 2 {
        return laws::given_done(Err(Refusal::OtherLength));
    }
    let Some(found) = reader::record_at(image, p) else {
        return 0;
    };
    words.copy_from_slice(&[found.leaf, found.start]);
    1
}
