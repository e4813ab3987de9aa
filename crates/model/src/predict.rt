// 02, E13 "Prediction bits" for C: each is the library's call itself.
ghost use Rattle.std.specs.Prelude.{◌≡◌};
ghost use Rattle.prediction.specs.Calls.{lent, done, fresh, read, write, synchronise};

// Every lent byte is made zero: 0, or 4,294,967,296 plus the refusal.
#[unsafe(no_mangle)]
pub extern "C" fn tag_predict_fresh(n: u64, c: u64, tags: &mut [u8], bits: &mut [u8]) -> u64
    ensures { done result (lent tags.new bits.new) ≡ fresh n c (lent tags.old bits.old) }
{
    laws::given_done(prediction::fresh(n, c, tags, bits))
}

// The value of group g, or 4,294,967,296 plus the refusal.
#[unsafe(no_mangle)]
pub extern "C" fn tag_predict_read(n: u64, c: u64, tags: &[u8], bits: &[u8], g: u64) -> u64
    ensures { result ≡ read n c (lent tags.now bits.now) g }
{
    laws::given(prediction::read(n, c, tags, bits, g).map(u64::from))
}

// Group g is made v: 0, or 4,294,967,296 plus the refusal.
#[unsafe(no_mangle)]
pub extern "C" fn tag_predict_write(
    n: u64,
    c: u64,
    tags: &mut [u8],
    bits: &mut [u8],
    g: u64,
    v: u32,
) -> u64
    ensures { done result (lent tags.new bits.new) ≡ write n c (lent tags.old bits.old) g v }
{
    laws::given_done(prediction::write(n, c, tags, bits, g, v))
}

// Run r is synchronised: 0, or 4,294,967,296 plus the refusal.
#[unsafe(no_mangle)]
pub extern "C" fn tag_predict_sync(n: u64, c: u64, tags: &[u8], bits: &mut [u8], r: u64) -> u64
    ensures { done result (lent tags.now bits.new) ≡ synchronise n c (lent tags.now bits.old) r }
{
    laws::given_done(prediction::synchronise(n, c, tags, bits, r))
}
