// 01 "The cache" for C, with the state as lent words: each is the library's call itself.
ghost use Rattle.std.specs.Prelude.{◌≡◌};
ghost use Rattle.running.specs.Run.{tag_run};
ghost use Rattle.harness.specs.Calls.{done, tag_fresh, tag_open, access_of, tag_issue, tag_step, tag_drain, tag_show, tag_whole};

// A fresh memory under a device, n, T and L: 0, or 4,294,967,296 plus the refusal.
#[unsafe(no_mangle)]
pub extern "C" fn tag_fresh(
    device: &[u64],
    state: &mut [u64],
    bytes: &[u8],
    memory: &mut [u8],
) -> u64
    ensures { done result state.new bytes.now memory.new ≡ tag_fresh device.now state.old bytes.now memory.old }
{
    laws::given_done(harness::fresh(device, state, bytes, memory))
}

// A memory as it is, under a device: 0, or 4,294,967,296 plus the refusal.
#[unsafe(no_mangle)]
pub extern "C" fn tag_open(device: &[u64], state: &mut [u64], bytes: &[u8], memory: &[u8]) -> u64
    ensures { done result state.new bytes.now memory.now ≡ tag_open device.now state.old bytes.now memory.now }
{
    laws::given_done(harness::open(device, state, bytes, memory))
}

// An access for tracker x: 0, or 4,294,967,296 plus the refusal.
#[unsafe(no_mangle)]
pub extern "C" fn tag_issue(
    state: &mut [u64],
    bytes: &[u8],
    memory: &[u8],
    x: u64,
    write: u64,
    bottom: u64,
    g: u64,
    v: u32,
) -> u64
    ensures { done result state.new bytes.now memory.now ≡ tag_issue state.old bytes.now memory.now x (access_of write bottom g v) }
{
    laws::given_done(harness::issue(state, bytes, memory, x, write, bottom, g, v))
}

// One step of tracker x, and the words of its answer: 0, or 4,294,967,296 plus the refusal.
#[unsafe(no_mangle)]
pub extern "C" fn tag_step(
    state: &mut [u64],
    bytes: &mut [u8],
    memory: &mut [u8],
    x: u64,
    answer: &mut [u64],
) -> u64
    ensures { (done result state.new bytes.new memory.new, answer.new) ≡ tag_step state.old bytes.old memory.old x answer.old }
{
    laws::given_done(harness::step(state, bytes, memory, x, answer))
}

// The changed lines are written to memory: 0, or 4,294,967,296 plus the refusal.
#[unsafe(no_mangle)]
pub extern "C" fn tag_drain(state: &mut [u64], bytes: &[u8], memory: &mut [u8]) -> u64
    ensures { done result state.new bytes.now memory.new ≡ tag_drain state.old bytes.now memory.old }
{
    laws::given(harness::drain(state, bytes, memory))
}

// Where leaf k is shown, or 4,294,967,296 plus the refusal.
#[unsafe(no_mangle)]
pub extern "C" fn tag_show<'a>(state: &[u64], bytes: &'a [u8], memory: &'a [u8], k: u64) -> u64
    ensures { result ≡ tag_show state.now bytes.now memory.now k }
{
    laws::given(harness::show(state, bytes, memory, k))
}

// 1 where the state is whole, else 0, or 4,294,967,296 plus the refusal.
#[unsafe(no_mangle)]
pub extern "C" fn tag_whole(state: &[u64]) -> u64
    ensures { result ≡ tag_whole state.now }
{
    laws::given(harness::whole(state).map(u64::from))
}

// Calls played one after another, each with its answer's words: 0, or 4,294,967,296 plus the refusal.
#[unsafe(no_mangle)]
pub extern "C" fn tag_run(
    state: &mut [u64],
    bytes: &mut [u8],
    memory: &mut [u8],
    calls: &[u64],
    answers: &mut [u64],
) -> u64
    ensures { (done result state.new bytes.new memory.new, answers.new) ≡ tag_run state.old bytes.old memory.old calls.now answers.old }
{
    laws::given_done(running::run(state, bytes, memory, calls, answers))
}
