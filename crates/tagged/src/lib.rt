// 02 E1: is anything tagged between here and there? The lowest tagged group from A up to but not including B, and the number of tagged leaves.
// No public function has a `requires`. Zero words of the map are passed over: time goes with the map's words and the tagged leaves, not with the groups.
#![tactic(auto)]

ghost use Rattle.std.specs.Prelude.{◌≡◌, true, ◌+◌, ◌*◌, ◌^◌, ◌%◌, ◌≤◌, ◌<◌, length, ltb, IfOk, Some, None, IfSome};
ghost use Rattle.laws.specs.Choice.{pick};
ghost use Rattle.laws.specs.Refusal.{refusal, refused_with, given};
ghost use Rattle.laws.specs.Scan.{first_from, count_from};
ghost use Rattle.geometry.specs.TagMemory.{groups, memory_length};
ghost use Rattle.memory.specs.PlainReading.{sized};
ghost use Rattle.tagged.specs.Tagged.{is_tagged, is_marked, lowest, leaves_from, inside, tests, tests_as_true, told, group_given, between, between_as_true, group_number, leaves_number};

use geometry::Geometry;
use laws::Refusal;

// the number that says none
const NONE: u64 = 8589934592;

// The lowest tagged group, if there is one, and the number of tagged leaves.
#[derive(Clone, Copy, PartialEq, Eq, Debug)]
pub struct Tagged {
    pub group: Option<u32>,
    pub leaves: u32,
}

// A byte with its bits from w on left out.
fn low_bits(x: u8, w: u32) -> u8
    requires { w ≤ 8 }
    ensures { result ≡ x % 2 ^ w }
{
    if w == Geometry::BYTE_BITS {
        return x;
    }
    x % (1u8 << w)
}

// The bytes of a memory of n leaves, as the limits have it.
#[derive(Clone, Copy)]
struct Memory<'a> {
    n: u32,
    bytes: &'a [u8],
    ghost few: { n ≤ 262144 },
    ghost long: { length bytes.now ≡ memory_length n },
}

impl<'a> Memory<'a> {
    // Refused 1, 2.
    #[inline(always)]
    fn new(n: u64, bytes: &'a [u8]) -> Result<Memory<'a>, Refusal>
        ensures told { refused_with result ≡ refusal (sized n bytes.now) }
        ensures same { IfOk result (λ s. (s.n ≡ n) × (s.bytes.now ≡ bytes.now)) }
    {
        memory::fits(n, bytes)?;
        Ok(Memory { n: n as u32, bytes })
    }

    // The groups from a up to but not including b. Refused 6.
    #[inline(always)]
    fn span(self, a: u64, b: u64) -> Result<Span<'a>, Refusal>
        ensures told { refused_with result ≡ refusal (inside self.entry.n a b) }
        ensures same { IfOk result (λ s. (s.memory.n ≡ self.entry.n) × (s.memory.bytes.now ≡ self.entry.bytes.now) × (s.a ≡ a) × (s.b ≡ b)) }
    {
        if b < a || Geometry::groups(self.n) < b {
            return Err(Refusal::NoGroup);
        }
        Ok(Span {
            memory: self,
            a: a as u32,
            b: b as u32,
        })
    }

    // The leaves with bit 1 among those of the map's byte j from its bit s up to but not including its bit t: its ones, masked at both ends.
    fn in_byte(self, j: u32, s: u32, t: u32) -> u32
        requires { (s < t) × (t ≤ 8) × (8 * j + s < self.n) }
        ensures { result ≡ count_from (is_marked self.entry.n self.entry.bytes.now) (8 * j + s) (8 * j + t) }
    {
        let at = Geometry::block_place(self.n) + j as usize;
        u8::count_ones(low_bits(self.bytes[at] >> s, t - s))
    }

    // The leaves with bit 1 among those of the map's whole bytes from j up to but not including end.
    fn in_bytes(self, j: u32, end: u32) -> u32
        requires { (j ≤ end) × (8 * end ≤ self.n) }
        ensures { result ≡ count_from (is_marked self.entry.n self.entry.bytes.now) (8 * j) (8 * end) }
    {
        let mut leaves: u32 = 0;
        for i in j..end {
            leaves += self.in_byte(i, 0, Geometry::BYTE_BITS);
        }
        leaves
    }

    // The leaves with bit 1 from leaf k to leaf l, both counted.
    fn count_marked(self, k: u32, l: u32) -> u32
        requires { (k ≤ l) × (l < self.n) }
        ensures { result ≡ count_from (is_marked self.entry.n self.entry.bytes.now) k (l + 1) }
    {
        let here = k / Geometry::BYTE_BITS;
        let there = l / Geometry::BYTE_BITS;
        let s = k % Geometry::BYTE_BITS;
        let t = l % Geometry::BYTE_BITS + 1;
        if here == there {
            return self.in_byte(here, s, t);
        }
        let low = self.in_byte(here, s, Geometry::BYTE_BITS);
        let whole = self.in_bytes(here + 1, there);
        low + whole + self.in_byte(there, 0, t)
    }

    // The first group from a up to but not including b, all of leaf k, that is not zero; b where there is none. Leaf k has bit 1.
    // Kept: b for none, and no Option: the search goes on from b.
    fn first_in_leaf(self, k: u32, a: u32, b: u32) -> u32
        requires { (a ≤ b) × (groups k ≤ a) × (b ≤ groups (k + 1)) × (is_marked self.n self.bytes.now k ≡ true) }
        ensures { result ≡ first_from (is_tagged self.entry.n self.entry.bytes.now) a b }
    {
        for g in a..b {
            if block::group_at(self.bytes, Geometry::group_place(g)) != 0 {
                return g;
            }
        }
        b
    }
}

// Groups of a memory: from a up to but not including b.
#[derive(Clone, Copy)]
struct Span<'a> {
    memory: Memory<'a>,
    a: u32,
    b: u32,
    ghost ordered: { a ≤ b },
    ghost there: { b ≤ groups memory.n },
}

impl<'a> Span<'a> {
    // The memory is true. Refused 1, 2, 3, 6.
    #[inline(always)]
    fn new(n: u64, bytes: &'a [u8], a: u64, b: u64) -> Result<Span<'a>, Refusal>
        ensures told { refused_with result ≡ refusal (tests n bytes.now a b) }
        ensures same { IfOk result (λ s. (s.memory.n ≡ n) × (s.memory.bytes.now ≡ bytes.now) × (s.a ≡ a) × (s.b ≡ b)) }
    {
        let memory = Memory::new(n, bytes)?;
        if !memory::is_true(memory.n, bytes) {
            return Err(Refusal::NotTrue);
        }
        memory.span(a, b)
    }

    // The memory is taken as true. Refused 1, 2, 6.
    #[inline(always)]
    fn as_true(n: u64, bytes: &'a [u8], a: u64, b: u64) -> Result<Span<'a>, Refusal>
        ensures told { refused_with result ≡ refusal (tests_as_true n bytes.now a b) }
        ensures same { IfOk result (λ s. (s.memory.n ≡ n) × (s.memory.bytes.now ≡ bytes.now) × (s.a ≡ a) × (s.b ≡ b)) }
    {
        Memory::new(n, bytes)?.span(a, b)
    }

    // The lowest group of them that reads not zero, by leaves with bit 1; b where there is none.
    // Kept: b for none, and no Option: its one caller makes the Option, of this and of a's own group.
    // It stays a function of its own, so that a sweep that finds a's own group pays nothing for it.
    #[inline(never)]
    fn lowest_by_leaves(self) -> u32
        ensures { result ≡ lowest self.entry.memory.n self.entry.memory.bytes.now self.entry.a self.entry.b }
    {
        let memory = self.memory;
        let b = self.b;
        let mut g = self.a;
        while g < b {
            let end = Geometry::leaf_of(b - 1) + 1;
            let k = memory::next_marked(memory.n, memory.bytes, Geometry::leaf_of(g), end);
            if k == end {
                return b;
            }
            let from = g.max(Geometry::groups(k) as u32);
            let upto = b.min(Geometry::groups(k + 1) as u32);
            let found = memory.first_in_leaf(k, from, upto);
            if found < upto {
                return found;
            }
            g = upto;
        }
        b
    }

    // The lowest group of them that reads not zero. a's own group, which a sweep's next one most often is, is read first.
    #[inline(always)]
    fn lowest(self) -> Option<u32>
        ensures { result ≡ pick (ltb (lowest self.entry.memory.n self.entry.memory.bytes.now self.entry.a self.entry.b) self.entry.b) (Some (lowest self.entry.memory.n self.entry.memory.bytes.now self.entry.a self.entry.b)) None }
    {
        if self.a == self.b {
            return None;
        }
        if memory::plain_group(self.memory.n, self.memory.bytes, self.a) != 0 {
            return Some(self.a);
        }
        let low = self.lowest_by_leaves();
        (low < self.b).then_some(low)
    }

    // The number of leaves with bit 1 from a's leaf to that of group b - 1; 0 where a is b.
    fn leaves(self) -> u32
        ensures { result ≡ leaves_from self.entry.memory.n self.entry.memory.bytes.now self.entry.a self.entry.b }
    {
        if self.a == self.b {
            return 0;
        }
        self.memory
            .count_marked(Geometry::leaf_of(self.a), Geometry::leaf_of(self.b - 1))
    }
}

// Is anything tagged from group a up to but not including group b? On a true memory: refusals 1, 2, 3, 6.
pub fn between(n: u64, memory: &[u8], a: u64, b: u64) -> Result<Tagged, Refusal>
    ensures { told result ≡ between n memory.now a b }
{
    let span = Span::new(n, memory, a, b)?;
    Ok(Tagged {
        group: span.lowest(),
        leaves: span.leaves(),
    })
}

// The lowest tagged group alone. A true memory is then taken as true.
pub fn first_tagged(n: u64, memory: &[u8], a: u64, b: u64) -> Result<Option<u32>, Refusal>
    ensures told { group_given result ≡ group_number (between n memory.now a b) }
    ensures fits { IfOk result (λ o. IfSome o (λ g. g < 4294967296)) }
{
    Ok(Span::new(n, memory, a, b)?.lowest())
}

// The number of tagged leaves alone.
#[inline(always)]
pub fn tagged_leaves(n: u64, memory: &[u8], a: u64, b: u64) -> Result<u32, Refusal>
    ensures told { given result ≡ leaves_number (between n memory.now a b) }
    ensures fits { IfOk result (λ v. v < 4294967296) }
{
    Ok(between(n, memory, a, b)?.leaves)
}

// `first_tagged` with the memory taken as true. Of any bytes: the lowest group that plain reading says is not zero.
// It is inlined with what it calls: a sweep calls it once for each tagged group.
#[inline(always)]
pub fn first_tagged_as_true(n: u64, memory: &[u8], a: u64, b: u64) -> Result<Option<u32>, Refusal>
    ensures told { group_given result ≡ group_number (between_as_true n memory.now a b) }
    ensures fits { IfOk result (λ o. IfSome o (λ g. g < 4294967296)) }
{
    Ok(Span::as_true(n, memory, a, b)?.lowest())
}

// `tagged_leaves` with the memory taken as true. Of any bytes: the number of leaves with bit 1.
pub fn tagged_leaves_as_true(n: u64, memory: &[u8], a: u64, b: u64) -> Result<u32, Refusal>
    ensures told { given result ≡ leaves_number (between_as_true n memory.now a b) }
    ensures fits { IfOk result (λ v. v < 4294967296) }
{
    Ok(Span::as_true(n, memory, a, b)?.leaves())
}

// What C is given of a call that answers a group: the group, NONE, or REFUSED plus the refusal.
#[inline(always)]
pub fn group_given(told: Result<Option<u32>, Refusal>) -> u64
    ensures { result ≡ group_given told }
{
    match told {
        Ok(Some(group)) => u64::from(group),
        Ok(None) => NONE,
        Err(r) => laws::REFUSED + r as u64,
    }
}
