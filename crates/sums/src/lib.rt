// The check of a block, by the old rule and by the new: 01 "Archive image", its second paragraph, and 02 E2; and the numbers of two bytes, its words.
// No public function has a `requires`: where the bytes are not all there, a read gives 0 and a write changes nothing.
#![tactic(auto)]

ghost use Rattle.std.specs.Prelude.{◌≡◌, ◌+◌, ◌*◌, ◌<◌, ◌≤◌, length};
ghost use Rattle.laws.specs.Bytes.{number_at, put_w, bytes};
ghost use Rattle.sums.specs.Check.{word, sum_a, sum_b, check_right, with_check, modulus_for};

// An image block's bytes, where its check stands in it, and the words before that.
const BLOCK: usize = 512;

const CHECK: usize = 508;

const WORDS: usize = 254;

const MODULUS: u64 = 65535;

#[derive(Clone, Copy)]
struct Sums {
    a: u16,
    b: u16,
}

// The two-byte number from `at`; 0 where its bytes are not all there.
pub fn two_at(row: &[u8], at: usize) -> u16
    ensures { result ≡ number_at 2 row.now at }
{
    let Some(rest) = row.get(at..) else {
        return 0;
    };
    let Some(two) = rest.first_chunk() else {
        return 0;
    };
    u16::from_le_bytes(*two)
}

// The number v into two bytes from `at`; where they do not fit, nothing changes.
pub fn put_two(row: &mut [u8], at: usize, v: u16)
    ensures { row.new ≡ put_w 2 row.old at (bytes 2 v) }
{
    if row.len() < 2 || row.len() - 2 < at {
        return;
    }
    row[at..at + 2].copy_from_slice(&v.to_le_bytes());
}

// Word k of a block that has it.
fn word_at(block: &[u8], k: usize) -> u16
    requires { 2 * k + 1 < length block.now }
    ensures { result ≡ word block.now k }
{
    u16::from_le_bytes([block[2 * k], block[2 * k + 1]])
}

// The two sums of version 1, modulo 65,535. The modulus is taken once, at the end: without it both stay far below 2^64.
fn old_sums(block: &[u8]) -> Sums
    requires { 508 ≤ length block.now }
    ensures { (result.a ≡ sum_a 65535 block.now 254) × (result.b ≡ sum_b 65535 block.now 254) }
{
    let mut a: u64 = 1;
    let mut b: u64 = 0;
    for k in 0..WORDS {
        a += u64::from(word_at(block, k));
        b += a;
    }
    Sums {
        a: (a % MODULUS) as u16,
        b: (b % MODULUS) as u16,
    }
}

// The two sums of every other version, modulo 65,536: both wrap. Two words a turn: with one, the image test takes an eighth more time.
fn new_sums(block: &[u8]) -> Sums
    requires { 508 ≤ length block.now }
    ensures { (result.a ≡ sum_a 65536 block.now 254) × (result.b ≡ sum_b 65536 block.now 254) }
{
    let mut a: u16 = 1;
    let mut b: u16 = 0;
    for k in 0..WORDS / 2 {
        a = a.wrapping_add(word_at(block, 2 * k));
        b = b.wrapping_add(a);
        a = a.wrapping_add(word_at(block, 2 * k + 1));
        b = b.wrapping_add(a);
    }
    Sums { a, b }
}

// The two sums by a version's rule.
fn sums_by(version: u16, block: &[u8]) -> Sums
    requires { 508 ≤ length block.now }
    ensures { (result.a ≡ sum_a (modulus_for version) block.now 254) × (result.b ≡ sum_b (modulus_for version) block.now 254) }
{
    if version == 1 {
        old_sums(block)
    } else {
        new_sums(block)
    }
}

// The block's check is right by a version's rule.
pub fn check_right(version: u16, block: &[u8]) -> bool
    ensures { result ≡ check_right (modulus_for version) block.now }
{
    if block.len() != BLOCK {
        return false;
    }
    let s = sums_by(version, block);
    two_at(block, CHECK) == s.a && two_at(block, CHECK + 2) == s.b
}

// The block gets its check, by the new rule, in bytes 508 to 511; where fewer than 512 bytes are lent, nothing changes.
pub fn seal(block: &mut [u8])
    ensures { block.new ≡ with_check 65536 block.old }
{
    if block.len() < BLOCK {
        return;
    }
    let s = new_sums(block);
    put_two(block, CHECK, s.a);
    put_two(block, CHECK + 2, s.b);
}
