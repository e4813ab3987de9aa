// 02, E8 "Salvage a damaged image" for C: each is the library's call itself.
ghost use Rattle.std.specs.Prelude.{◌≡◌};
ghost use Rattle.salvage.specs.Salvage.{salvaging, numbered, as_number, listed_number};

// The new image and the list are written: the image's length, or 4,294,967,296 plus the refusal.
#[unsafe(no_mangle)]
pub extern "C" fn tag_salvage(image: &[u8], output: &mut [u8], list: &mut [u64]) -> u64
    ensures { numbered result output.new list.new ≡ as_number (salvaging image.now output.old list.old) }
{
    laws::given(salvage::salvage_length(image, output, list))
}

// The number of entries, or 4,294,967,296 plus the refusal of the head.
#[unsafe(no_mangle)]
pub extern "C" fn tag_salvage_listed(image: &[u8]) -> u64
    ensures { result ≡ listed_number image.now }
{
    laws::given(salvage::salvage_listed(image))
}
