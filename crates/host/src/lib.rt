// 01 "The host simulator is in C": the calls that it makes, with numbers and byte slices; and those of a collector's runtime (02, E1).
#![tactic(auto)]

ghost use Rattle.std.specs.Prelude.{◌≡◌};
ghost use Rattle.memory.specs.PlainReading.{plain_reading};
ghost use Rattle.tagged.specs.Tagged.{between, between_as_true, group_number, leaves_number};
ghost use Rattle.form.specs.Test.{image_test};

// Plain reading: the group, or 4,294,967,296 plus the refusal.
#[unsafe(no_mangle)]
pub extern "C" fn tag_plain_read(n: u64, memory: &[u8], group: u64) -> u64
    ensures { result ≡ plain_reading n memory.now group }
{
    laws::given(memory::plain_reading(n, memory, group).map(u64::from))
}

// The image test: 0, or 10 or 11.
#[unsafe(no_mangle)]
pub extern "C" fn tag_image_test(image: &[u8]) -> u64
    ensures { result ≡ image_test image.now }
{
    laws::refused_with(image::image_test(image))
}

// The lowest tagged group from a up to but not including b, 8,589,934,592 for none, or 4,294,967,296 plus the refusal.
#[unsafe(no_mangle)]
pub extern "C" fn tag_first_tagged(n: u64, memory: &[u8], a: u64, b: u64) -> u64
    ensures { result ≡ group_number (between n memory.now a b) }
{
    tagged::group_given(tagged::first_tagged(n, memory, a, b))
}

// The number of tagged leaves from a's leaf to that of group b - 1, or 4,294,967,296 plus the refusal.
#[unsafe(no_mangle)]
pub extern "C" fn tag_tagged_leaves(n: u64, memory: &[u8], a: u64, b: u64) -> u64
    ensures { result ≡ leaves_number (between n memory.now a b) }
{
    laws::given(tagged::tagged_leaves(n, memory, a, b).map(u64::from))
}

// `tag_first_tagged` with the memory taken as true: never refusal 3.
#[unsafe(no_mangle)]
pub extern "C" fn tag_first_tagged_as_true(n: u64, memory: &[u8], a: u64, b: u64) -> u64
    ensures { result ≡ group_number (between_as_true n memory.now a b) }
{
    tagged::group_given(tagged::first_tagged_as_true(n, memory, a, b))
}

// `tag_tagged_leaves` with the memory taken as true: never refusal 3.
#[unsafe(no_mangle)]
pub extern "C" fn tag_tagged_leaves_as_true(n: u64, memory: &[u8], a: u64, b: u64) -> u64
    ensures { result ≡ leaves_number (between_as_true n memory.now a b) }
{
    laws::given(tagged::tagged_leaves_as_true(n, memory, a, b).map(u64::from))
}
