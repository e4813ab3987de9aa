// 01 "The tag memory": the limits and the address rules, as a type of their own; and the shape of a cache over such a memory.
// No public function has a `requires`: the number of a leaf, a group or a block is 32 bits wide, and places are counted in 64.
#![tactic(auto, unfolding(laws::specs::Choice::both, crate::specs::TagMemory::in_limits_of, crate::specs::TagMemory::leaf_of, crate::specs::TagMemory::byte_of, crate::specs::TagMemory::groups, crate::specs::TagMemory::map_block_of, crate::specs::TagMemory::map_byte_of, crate::specs::TagMemory::map_bit_of, crate::specs::TagMemory::map_blocks, crate::specs::Shape::below_top))]

ghost use Rattle.std.specs.Prelude.{◌≡◌, ◌+◌, ◌≤◌};
ghost use Rattle.geometry.specs.Shape.{shape_of, at_hand, below_top, top_of};
ghost use Rattle.geometry.specs.TagMemory.{leaf_of, byte_of, groups, most_leaves_of, in_limits_of, in_limits, map_block_of, map_byte_of, map_bit_of, index, map_blocks, base, block_over, blocks_of, length_of, memory_length, block_place, group_place, map_place};

#[derive(Clone, Copy)]
pub struct Geometry {}

impl Geometry {
    // The most leaves that a memory of two levels has; the fewest is one.
    pub const MOST_LEAVES: u64 = 262144;

    // The most leaves that a memory of three levels has.
    pub const MOST_LEAVES_3: u64 = 1048576;

    // The most trackers that a cache has; the fewest is one.
    pub const MOST_TRACKERS: usize = 8;

    // The most lines that a cache has; the fewest is one more than its trackers.
    pub const MOST_LINES: usize = 64;

    // The bytes of a block, leaf or map.
    pub const BLOCK_LEN: usize = 64;

    // The bytes of a group.
    pub const GROUP_LEN: usize = 4;

    // The groups of a leaf.
    pub const GROUPS: u32 = 16;

    // The bits of a map block.
    pub const BITS: u32 = 512;

    // The bits of a byte.
    pub const BYTE_BITS: u32 = 8;

    // The most leaves of a memory whose top level this is.
    fn most_leaves(top: u8) -> u64
        ensures { result ≡ most_leaves_of top }
    {
        match top {
            1 => Self::MOST_LEAVES,
            2 => Self::MOST_LEAVES_3,
            _ => 0,
        }
    }

    // n is a number of leaves that a memory of this top level can have.
    pub fn in_limits_of(top: u8, n: u64) -> bool
        ensures { result ≡ in_limits_of top n }
    {
        1 <= n && n <= Self::most_leaves(top)
    }

    // n is a number of leaves that a memory of two levels can have.
    pub fn in_limits(n: u64) -> bool
        ensures { result ≡ in_limits n }
    {
        Self::in_limits_of(1, n)
    }

    // The leaf of group g.
    pub fn leaf_of(g: u32) -> u32
        ensures { result ≡ leaf_of g }
    {
        g / Self::GROUPS
    }

    // The groups of n leaves.
    pub fn groups(n: u32) -> u64
        ensures { result ≡ groups n }
    {
        u64::from(Self::GROUPS) * u64::from(n)
    }

    // The place of group g's first byte in its leaf.
    pub fn byte_of(g: u32) -> usize
        ensures { result ≡ byte_of g }
    {
        Self::GROUP_LEN * ((g % Self::GROUPS) as usize)
    }

    // The map block of leaf k, counted from the first map block.
    pub fn map_block_of(k: u32) -> u32
        ensures { result ≡ map_block_of k }
    {
        k / Self::BITS
    }

    // The byte of leaf k's bit in its map block.
    pub fn map_byte_of(k: u32) -> usize
        ensures { result ≡ map_byte_of k }
    {
        (k % Self::BITS / Self::BYTE_BITS) as usize
    }

    // The bit of leaf k in that byte.
    pub fn map_bit_of(k: u32) -> u32
        ensures { result ≡ map_bit_of k }
    {
        k % Self::BYTE_BITS
    }

    // The block of level e that group g lies under.
    pub fn index(e: u8, g: u32) -> u32
        ensures { result ≡ index e g }
    {
        let mut k = Self::leaf_of(g);
        for _i in 0..e {
            k = Self::map_block_of(k);
        }
        k
    }

    // The number of map blocks over n leaves.
    pub fn map_blocks(n: u32) -> u64
        ensures { result ≡ map_blocks n }
    {
        u64::from(n).div_ceil(u64::from(Self::BITS))
    }

    // The blocks of all levels below e, over n leaves.
    fn base(e: u32, n: u32) -> u64
        requires { e ≤ 256 }
        ensures { result ≡ base e n }
    {
        let mut below: u64 = 0;
        let mut blocks = n;
        for _i in 0..e {
            below += u64::from(blocks);
            blocks = Self::map_blocks(blocks) as u32;
        }
        below
    }

    // The block of level e that group g lies under, among all blocks of a memory of n leaves.
    pub fn block_over(e: u8, n: u32, g: u32) -> u64
        ensures { result ≡ block_over e n g }
    {
        Self::base(u32::from(e), n) + u64::from(Self::index(e, g))
    }

    // The blocks of a memory of n leaves and this top level.
    pub fn blocks_of(top: u8, n: u32) -> u64
        ensures { result ≡ blocks_of top n }
    {
        Self::base(u32::from(top) + 1, n)
    }

    // The bytes of a memory of n leaves and this top level.
    pub fn length_of(top: u8, n: u32) -> u64
        ensures { result ≡ length_of top n }
    {
        Self::BLOCK_LEN as u64 * Self::blocks_of(top, n)
    }

    // The bytes of a memory of n leaves and two levels.
    pub fn memory_length(n: u32) -> u64
        ensures { result ≡ memory_length n }
    {
        Self::length_of(1, n)
    }

    // The number, among all blocks of a memory of n leaves, of the map block with leaf k's bit.
    pub fn map_number(n: u32, k: u32) -> u64
        ensures { result ≡ n + map_block_of k }
    {
        u64::from(n) + u64::from(Self::map_block_of(k))
    }

    // The place in memory of block b.
    pub fn block_place(b: u32) -> usize
        ensures { result ≡ block_place b }
    {
        Self::BLOCK_LEN * (b as usize)
    }

    // The place in memory of group g's first byte.
    pub fn group_place(g: u32) -> usize
        ensures { result ≡ group_place g }
    {
        Self::block_place(Self::leaf_of(g)) + Self::byte_of(g)
    }

    // The place in a memory of n leaves of the byte that has leaf k's bit.
    pub fn map_place(n: u32, k: u32) -> usize
        ensures { result ≡ map_place n k }
    {
        Self::BLOCK_LEN * (Self::map_number(n, k) as usize) + Self::map_byte_of(k)
    }
}

// T trackers and L lines over n leaves, and the hand.
#[derive(Clone, Copy)]
pub struct Shape {
    pub n: u32,
    pub t: u32,
    pub l: usize,
    pub hand: usize,
}

impl Shape {
    // T trackers and L lines over n leaves; the hand starts at 0.
    pub fn start(n: u32, t: u32, l: usize) -> Shape
        ensures { result ≡ shape_of n t l }
    {
        Shape { n, t, l, hand: 0 }
    }

    // The level below the top: that of the leaves.
    pub fn below_top(self) -> u8
        ensures { result ≡ below_top self }
    {
        0
    }

    // The top level: that of the blocks that are held.
    pub fn top(self) -> u8
        ensures { result ≡ top_of self }
    {
        self.below_top() + 1
    }

    // The same with the hand at line h.
    pub fn at_hand(self, h: usize) -> Shape
        ensures { result ≡ at_hand self h }
    {
        Shape { hand: h, ..self }
    }
}
