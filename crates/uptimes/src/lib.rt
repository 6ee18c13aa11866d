// The up-time of a name's signal on a sheet: its up stretches before a horizon, and their total.
#![tactic(auto)]

ghost use Rattle.std.specs.Prelude.{◌≡◌, ◌≤◌};
ghost use Rattle.signals.specs.Moment.{M as Moment-as-M};
ghost use Rattle.signals.specs.Words.{list_fault};
ghost use Rattle.format.specs.Theorems.{decoded};
ghost use Rattle.stretches.specs.Calls.{CallOfUpTime};
ghost use Rattle.uptimes.specs.Turns.{CanGoOn, state_of, put_two, ended, past_word, FoundIn, fits_in, TellsUpTime};

use format::Place;
use signals::{Date, M, WORDS};
use sources::{Lent, Memory, Source};
use stretches::UpTime;

// On the way along a list: the gap since which the value is held, the words of the stretches so far, and their ticks.
#[derive(Clone, Copy)]
struct Going {
    from: Date,
    count: usize,
    total: u32,
}

// Two words at a place of the output, where both fit.
fn put_two(out: &mut [u32], at: usize, first: u32, second: u32)
    requires { at ≤ 1024 }
    ensures { out.new ≡ put_two out.old at first second }
{
    let next = at + 1;
    if next < out.len() {
        out[at] = first;
        out[next] = second;
    }
}

// Ends before a gap the stretch that is under way, where it has any gap: its words go to the output where they fit, and are counted.
fn end_before(out: &mut [u32], going: Going, end: Date) -> Going
    requires { CanGoOn going }
    ensures { state_of result out.new ≡ ended end.0 (state_of going out.old) }
{
    let from = going.from;
    if from.0 < end.0 {
        let length = end.0 - from.0;
        put_two(out, going.count, from.0, length);
        return Going {
            from: end,
            count: going.count + 2,
            total: going.total + length,
        };
    }
    going
}

// Past a date, by the values before it and after it.
fn pass(out: &mut [u32], going: Going, date: Date, before: bool, after: bool) -> Going
    requires { CanGoOn going }
    ensures { state_of result out.new ≡ past_word date.0 before after (state_of going out.old) }
{
    if !before {
        Going {
            from: date,
            ..going
        }
    } else if after {
        going
    } else {
        end_before(out, going, date)
    }
}

// The stretches of an accepted list, given as its bytes: how many words and ticks, and the words in the output where all of them fit.
fn stretches_in(part: &[u8], h: u32, out: &mut [u32]) -> Going
    requires part_value { list_fault (decoded part.now) ≡ 0 }
    requires h_bound { h ≤ Moment-as-M }
    ensures { FoundIn (decoded part.now) h result.«count» result.total out.old out.new }
{
    let list = Source {
        memory: Memory::Sheet,
        at: 0,
        count: (part.len() / 4) as u32,
    };
    let none = [0u32; 1];
    let mut going = Going {
        from: Date(0),
        count: 0,
        total: 0,
    };
    let lent = Lent {
        sheet: part,
        left: &none,
        right: &none,
    };
    let mut reader = lent.start(&none, list);
    while reader.date < h {
        let date = Date(reader.date);
        let passed = lent.past(&none, list, reader, date);
        let step = passed.step;
        going = pass(out, going, date, step.before, step.after);
        reader = passed.next;
    }
    // the value held after the last word passed is up
    if reader.last % 2 == 1 {
        return end_before(out, going, Date(h));
    }
    going
}

// Whether the words of an accepted list's stretches fit a room: one of as many words as a list may have always does; else they are
// counted.
fn fits(part: &[u8], h: u32, room: usize) -> bool
    requires part_value { list_fault (decoded part.now) ≡ 0 }
    requires h_bound { h ≤ Moment-as-M }
    ensures { result ≡ fits_in (decoded part.now) h room }
{
    if WORDS <= room {
        return true;
    }
    let mut nowhere = [0u32; 1];
    let found = stretches_in(part, h, &mut nowhere);
    found.count <= room
}

// The up-time of an accepted list: a refused call writes nothing.
fn up_time_of(part: &[u8], h: u32, out: &mut [u32]) -> UpTime
    requires part_value { list_fault (decoded part.now) ≡ 0 }
    requires h_bound { h ≤ Moment-as-M }
    ensures { TellsUpTime (decoded part.now) h out.old result out.new }
{
    let room = out.len();
    if fits(part, h, room) {
        let written = stretches_in(part, h, out);
        return UpTime::Told {
            count: written.count,
            total: written.total,
        };
    }
    UpTime::Refused(7)
}

// The up stretches of a name's signal before a horizon, the first gap and the length of each, and their total: faults sheet, 16, 13, 19, 7.
pub fn uptime(sheet: &[u8], name: &[u8], h: u32, out: &mut [u32]) -> UpTime
    ensures { CallOfUpTime sheet.now name.now h out.old result out.new }
{
    match lookups::locate(sheet, name) {
        Place::At { start, count } => {
            if M < h {
                return UpTime::Refused(19);
            }
            let end = start + count;
            up_time_of(&sheet[start..end], h, out)
        }
        Place::Refused(fault) => UpTime::Refused(fault),
    }
}
