// 02, E13 "Prediction bits": one bit for a run of c groups, over lent tags and bits.
// No public function has a `requires`. Refused, all lent bytes stay as they came.
#![tactic(auto)]

ghost use Rattle.std.specs.Prelude.{◌≡◌, ◌+◌, ◌≤◌, ◌<◌, min, length, IfOk};
ghost use Rattle.laws.specs.Choice.{pick};
ghost use Rattle.laws.specs.Refusal.{refusal, refused_with, given, given_done};
ghost use Rattle.geometry.specs.TagMemory.{groups, block_place};
ghost use Rattle.prediction.specs.Runs.{is_run, runs, bits_length, run_bit, put_run_bit, any_in};
ghost use Rattle.prediction.specs.Calls.{lent, done, lent_tests, group_tests, run_tests, fresh, group_read, read, marked, write, synchronise};

use geometry::Geometry;
use laws::Refusal;

// c is the length of a run: 4, 8, 16 or 32 groups.
fn is_run(c: u64) -> bool
    ensures { result ≡ is_run c }
{
    matches!(c, 4 | 8 | 16 | 32)
}

// The groups of n leaves in runs of c: numbers as the limits have them.
#[derive(Clone, Copy)]
struct Runs {
    n: u32,
    c: u32,
    ghost few: { n ≤ 262144 },
    ghost some: { 0 < c },
    ghost short: { c ≤ 32 },
}

impl Runs {
    // How many runs there are; the last may be shorter.
    fn count(self) -> u64
        ensures { result ≡ runs self.n self.c }
    {
        (Geometry::groups(self.n) + u64::from(self.c) - 1) / u64::from(self.c)
    }

    // The bytes of the runs' bits.
    fn bits_length(self) -> u64
        ensures { result ≡ bits_length self.n self.c }
    {
        self.count().div_ceil(u64::from(Geometry::BYTE_BITS))
    }

    // What is lent has these lengths. Refused 1 for n, 15 for c, 2.
    fn lent(n: u64, c: u64, tags: usize, bits: usize) -> Result<Runs, Refusal>
        ensures told { refused_with result ≡ refusal (lent_tests n c tags bits) }
        ensures same { IfOk result (λ s. (s.n ≡ n) × (s.c ≡ c)) }
    {
        if !Geometry::in_limits(n) {
            return Err(Refusal::OutsideLimits);
        }
        if !is_run(c) {
            return Err(Refusal::OtherRun);
        }
        let runs = Runs {
            n: n as u32,
            c: c as u32,
        };
        if tags != Geometry::block_place(runs.n) || bits as u64 != runs.bits_length() {
            return Err(Refusal::OtherLength);
        }
        Ok(runs)
    }

    // The same, and group g. Then refused 6 for a group that is not there.
    fn group(n: u64, c: u64, tags: usize, bits: usize, g: u64) -> Result<(Runs, u32), Refusal>
        ensures told { refused_with result ≡ refusal (group_tests n c tags bits g) }
        ensures same { IfOk result (λ s. (s.0.n ≡ n) × (s.0.c ≡ c) × (s.1 ≡ g)) }
    {
        let runs = Runs::lent(n, c, tags, bits)?;
        if Geometry::groups(runs.n) <= g {
            return Err(Refusal::NoGroup);
        }
        Ok((runs, g as u32))
    }

    // The same, and run r. Then refused 6 for a run that is not there.
    fn run(n: u64, c: u64, tags: usize, bits: usize, r: u64) -> Result<(Runs, u32), Refusal>
        ensures told { refused_with result ≡ refusal (run_tests n c tags bits r) }
        ensures same { IfOk result (λ s. (s.0.n ≡ n) × (s.0.c ≡ c) × (s.1 ≡ r)) }
    {
        let runs = Runs::lent(n, c, tags, bits)?;
        if runs.count() <= r {
            return Err(Refusal::NoGroup);
        }
        Ok((runs, r as u32))
    }

    // Group g: 0 under bit 0, the tags under bit 1.
    fn group_read(self, tags: &[u8], bits: &[u8], g: u32) -> u32
        ensures { result ≡ group_read self.c (lent tags.now bits.now) g }
    {
        if run_bit(bits, g / self.c) != 1 {
            return 0;
        }
        block::group_at(tags, Geometry::group_place(g))
    }

    // The bit of group g's run is set, unless v is 0.
    fn mark(self, bits: &mut [u8], g: u32, v: u32)
        ensures { bits.new ≡ marked self.c bits.old g v }
    {
        if v == 0 {
            return;
        }
        put_run_bit(bits, g / self.c, true);
    }

    // The group after the last of a run from group `from` on; the last run ends with the groups.
    fn run_end(self, from: u32) -> u64
        ensures { result ≡ min (from + self.c) (groups self.n) }
    {
        let end = u64::from(from) + u64::from(self.c);
        end.min(Geometry::groups(self.n))
    }

    // Some group of run r is not zero.
    fn any_in(self, tags: &[u8], r: u32) -> bool
        requires { (r < runs self.n self.c) × (length tags.now ≡ block_place self.n) }
        ensures { result ≡ any_in self.n self.c tags.now r }
    {
        let from = r * self.c;
        let end = self.run_end(from) as u32;
        let at = Geometry::group_place(from);
        let to = Geometry::group_place(end);
        !block::all_zero(&tags[at..to])
    }
}

// Run r's bit.
fn run_bit(bits: &[u8], r: u32) -> u8
    ensures { result ≡ run_bit bits.now r }
{
    block::bit_at(
        bits,
        (r / Geometry::BYTE_BITS) as usize,
        r % Geometry::BYTE_BITS,
    )
}

// Run r's bit made v.
fn put_run_bit(bits: &mut [u8], r: u32, v: bool)
    ensures { bits.new ≡ put_run_bit bits.old r (pick v 1 0) }
{
    block::put_bit(
        bits,
        (r / Geometry::BYTE_BITS) as usize,
        r % Geometry::BYTE_BITS,
        v,
    );
}

// Tags and bits start at zero: every lent byte is made zero. Refused 1, 15, 2.
pub fn fresh(n: u64, c: u64, tags: &mut [u8], bits: &mut [u8]) -> Result<(), Refusal>
    ensures { done (given_done result) (lent tags.new bits.new) ≡ fresh n c (lent tags.old bits.old) }
{
    Runs::lent(n, c, tags.len(), bits.len())?;
    block::clear(tags);
    block::clear(bits);
    Ok(())
}

// The value of group g. Refused 1, 15, 2, 6.
pub fn read(n: u64, c: u64, tags: &[u8], bits: &[u8], g: u64) -> Result<u32, Refusal>
    ensures told { given result ≡ read n c (lent tags.now bits.now) g }
    ensures fits { IfOk result (λ v. v < 4294967296) }
{
    let (runs, g) = Runs::group(n, c, tags.len(), bits.len(), g)?;
    Ok(runs.group_read(tags, bits, g))
}

// Group g is made v, and the bit of its run is set, unless v is 0. Refused 1, 15, 2, 6.
pub fn write(
    n: u64,
    c: u64,
    tags: &mut [u8],
    bits: &mut [u8],
    g: u64,
    v: u32,
) -> Result<(), Refusal>
    ensures { done (given_done result) (lent tags.new bits.new) ≡ write n c (lent tags.old bits.old) g v }
{
    let (runs, g) = Runs::group(n, c, tags.len(), bits.len(), g)?;
    block::put_group(tags, Geometry::group_place(g), v);
    runs.mark(bits, g, v);
    Ok(())
}

// The bit of run r is made to say whether any of its groups is not zero. Refused 1, 15, 2, 6.
pub fn synchronise(n: u64, c: u64, tags: &[u8], bits: &mut [u8], r: u64) -> Result<(), Refusal>
    ensures { done (given_done result) (lent tags.now bits.new) ≡ synchronise n c (lent tags.now bits.old) r }
{
    let (runs, r) = Runs::run(n, c, tags.len(), bits.len(), r)?;
    put_run_bit(bits, r, runs.any_in(tags, r));
    Ok(())
}
