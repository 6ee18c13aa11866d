// What sheets and the programs do with bytes.
#![tactic(auto)]

ghost use Rattle.std.specs.Prelude.{◌≡◌, ◌<◌, length, drop};
ghost use Rattle.slices.specs.Bytes.{low16, low32};
ghost use Rattle.slices.specs.Slices.{before, past, put_at};

// The number of bytes before the first that is `stop`; of all bytes when none is.
pub fn len_before(bytes: &[u8], stop: u8) -> usize
    ensures { result ≡ length (before stop bytes.now) }
{
    bytes.iter().position(|b| *b == stop).unwrap_or(bytes.len())
}

// The bytes before the first that is `stop`; all of them when none is.
#[tactic(auto, using(crate::proofs::Steps::before_within, crate::proofs::Steps::take_before))]
pub fn part_before(bytes: &[u8], stop: u8) -> &[u8]
    ensures { result.now ≡ before stop bytes.now }
{
    &bytes[..len_before(bytes, stop)]
}

// The bytes after the first that is `stop`; none when none is.
#[tactic(auto, using(crate::proofs::Steps::before_within, crate::proofs::Steps::past_rest, crate::proofs::Steps::past_end))]
pub fn part_after(bytes: &[u8], stop: u8) -> &[u8]
    ensures { result.now ≡ past stop bytes.now }
{
    bytes.get(len_before(bytes, stop) + 1..).unwrap_or(&[])
}

// The 16-bit number at a place, low byte first; bytes past the end are 0.
#[tactic(auto, using(crate::proofs::Numbers::low16_at, crate::proofs::Numbers::past, crate::proofs::Numbers::rest_at))]
pub fn read16(bytes: &[u8], at: usize) -> usize
    ensures { (result ≡ low16 (drop at bytes.now)) × (result < 65536) }
{
    match bytes.get(at..) {
        Some([low, high, ..]) => usize::from(u16::from_le_bytes([*low, *high])),
        Some([low]) => usize::from(*low),
        _ => 0,
    }
}

// The 32-bit word at a place, low byte first; bytes past the end are 0.
#[tactic(auto, using(crate::proofs::Numbers::low32_halves, crate::proofs::Numbers::none16))]
pub fn read32(bytes: &[u8], at: usize) -> u32
    ensures { result ≡ low32 (drop at bytes.now) }
{
    let low = read16(bytes, at) as u32;
    let high = read16(bytes, at.saturating_add(2)) as u32;
    low + 65536 * high
}

// Writes bytes into the output at a place; nothing where they do not fit.
#[tactic(auto, using(crate::proofs::Placing::put_whole, crate::proofs::Placing::put_short))]
pub fn put(out: &mut [u8], at: usize, bytes: &[u8])
    ensures { out.new ≡ put_at out.old at bytes.now }
{
    if at <= out.len() && bytes.len() <= out.len() - at {
        copying::copy(bytes, &mut out[at..at + bytes.len()]);
    }
}
