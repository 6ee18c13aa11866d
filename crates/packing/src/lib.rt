// The answers of the library packed into one number each, and the table that a number stands for. Of each number of an answer the low
// bits are kept that its place has room for: for the answers that a call gives, these are all.
#![tactic(auto)]

ghost use Rattle.std.specs.Prelude.{◌≡◌, ◌%◌};
ghost use Rattle.packing.specs.Packing.{fault_bits, written_bits, told_bits, verdict_bits, pack_end, span_bits, place_bits, up_time_bits};
ghost use Rattle.packing.specs.Packing.{column_bits, stop_bits, table_in};

use columns::Column;
use format::Place;
use grammar::Stop;
use signals::{End, Told, Verdict, Written};
use stretches::UpTime;

// A fault.
pub fn pack_fault(fault: u32) -> u32
    ensures { result ≡ fault_bits fault }
{
    65536 * (fault % 65536)
}

// What a call that writes answers.
pub fn pack_written(answer: Written) -> u32
    ensures { result ≡ written_bits answer }
{
    match answer {
        Written::Count(n) => (n % 65536) as u32,
        Written::Refused(fault) => pack_fault(fault),
    }
}

// What a question answers.
pub fn pack_told(answer: Told) -> u32
    ensures { result ≡ told_bits answer }
{
    match answer {
        Told::Yes => 1,
        Told::No => 0,
        Told::Refused(fault) => pack_fault(fault),
    }
}

// What a claim answers.
#[tactic(auto, unfolding(crate::specs::Packing::verdict_bits, crate::specs::Packing::pack_moment))]
pub fn pack_verdict(answer: Verdict) -> u64
    ensures { result ≡ verdict_bits answer }
{
    match answer {
        Verdict::Holds => 0,
        Verdict::FailsAt(k, end) => 2 * u64::from(k),
        Verdict::FailsAfter(k, end) => 2 * u64::from(k) + 1,
        Verdict::Refused(fault) => 1099511627776 * u64::from(fault % 16777216),
    }
}

// The last moment of a run that ends so: the instant k, or the gap before it, which is 0 for k 0, that no verdict has.
#[tactic(auto, unfolding(crate::specs::Packing::pack_end))]
fn pack_end(end: End) -> u64
    ensures { result ≡ pack_end end % 4294967296 }
{
    match end {
        End::At(k) => 2 * u64::from(k) % 4294967296,
        End::Before(k) => (2 * u64::from(k)).saturating_sub(1) % 4294967296,
        End::Never => 0,
    }
}

// What a claim answers, with the end of the failing run.
#[tactic(auto, unfolding(crate::specs::Packing::span_bits, crate::specs::Packing::pack_moment, crate::specs::Packing::pack_last))]
pub fn pack_span(answer: Verdict) -> u64
    ensures { result ≡ span_bits answer }
{
    match answer {
        Verdict::Holds => 0,
        Verdict::FailsAt(k, end) => 4294967296 * pack_end(end) + 2 * u64::from(k) % 4294967296,
        Verdict::FailsAfter(k, end) => {
            4294967296 * pack_end(end) + (2 * u64::from(k) + 1) % 4294967296
        }
        Verdict::Refused(fault) => 4294967296 * u64::from(fault),
    }
}

// What a lookup answers.
#[tactic(auto, unfolding(crate::specs::Packing::place_bits))]
pub fn pack_place(answer: Place) -> u64
    ensures { result ≡ place_bits answer }
{
    match answer {
        Place::At { start, count } => {
            16777216 * ((start % 16777216) as u64) + (count % 16777216) as u64
        }
        Place::Refused(fault) => 281474976710656 * u64::from(fault % 65536),
    }
}

// What the up-time call answers.
#[tactic(auto, unfolding(crate::specs::Packing::up_time_bits))]
pub fn pack_uptime(answer: UpTime) -> u64
    ensures { result ≡ up_time_bits answer }
{
    match answer {
        UpTime::Told { count, total } => 65536 * u64::from(total) + (count % 65536) as u64,
        UpTime::Refused(fault) => 281474976710656 * u64::from(fault % 65536),
    }
}

// What a column answers.
#[tactic(auto, unfolding(crate::specs::Packing::column_bits))]
pub fn pack_column(answer: Column) -> u64
    ensures { result ≡ column_bits answer }
{
    match answer {
        Column::Filled { count, passed } => {
            65536 * ((passed as u64) % 4294967296) + (count % 65536) as u64
        }
        Column::Refused(fault) => 281474976710656 * u64::from(fault % 65536),
    }
}

// What reading a formula tells.
#[tactic(auto, unfolding(crate::specs::Packing::stop_bits, crate::specs::Packing::pack_stop))]
pub fn pack_stop(answer: Stop) -> u64
    ensures { result ≡ stop_bits answer.fault answer.place }
{
    281474976710656 * u64::from(answer.fault % 65536) + (answer.place as u64) % 281474976710656
}

// The table of a number: bit 2·row + column.
pub fn table_in(n: u32) -> [[bool; 2]; 2]
    ensures { result ≡ table_in n }
{
    [
        [n / 1 % 2 == 1, n / 2 % 2 == 1],
        [n / 4 % 2 == 1, n / 8 % 2 == 1],
    ]
}
