// Two lists compared: equality and implication, by one scan along both.
#![tactic(auto)]

ghost use Rattle.std.specs.Prelude.{◌≡◌, true, false};
ghost use Rattle.signals.specs.Words.{pair_fault};
ghost use Rattle.questions.specs.Questions.{equal_of, implies_of};
ghost use Rattle.sources.specs.Lending.{list_in};
ghost use Rattle.comparing.specs.Finding.{sought_by, Standing, MeetsFrom, end_met, EndsSo, FoundAt, start_scan};

use lists::pair_fault;
use reading::NEVER;
use signals::{Date, End, Told, Verdict};
use sources::{Cursor, Lent, Source, past_in, start_in};

// Where a scan stands: in the gap after a date, its readers past the words up to that date.
#[derive(Clone, Copy)]
pub struct Scan {
    pub after: u32,
    pub left: Cursor,
    pub right: Cursor,
}

// What a scan meets: the gap that it stands in, the instant of the date after which it then stands, or nothing.
#[derive(Clone, Copy)]
pub enum Met {
    Gap(Scan),
    Instant(Scan),
    Nothing,
}

// p to q fails (p up and q down; both ways, also q up and p down), or, where that is sought, does not.
fn sought(both: bool, failing: bool, p: bool, q: bool) -> bool
    ensures { result ≡ sought_by both failing p q }
{
    (p != q && (p || both)) == failing
}

// The first moment at which f to g fails, or does not, from where the scan stands on: of that gap, then of each date its instant and the
// gap after it, since values change nowhere else.
fn seek(
    both: bool,
    failing: bool,
    lent: Lent,
    work: &[u32],
    f: Source,
    g: Source,
    from: Scan,
) -> Met
    requires { Standing (list_in lent work.now f) (list_in lent work.now g) from }
    ensures { MeetsFrom both failing (list_in lent.entry work.now f)
        (list_in lent.entry work.now g) from result }
{
    let mut last = from.after;
    let mut a = from.left;
    let mut b = from.right;
    loop {
        if sought(both, failing, a.last % 2 == 1, b.last % 2 == 1) {
            return Met::Gap(Scan {
                after: last,
                left: a,
                right: b,
            });
        }
        let date = words::earlier(a.date, b.date);
        if NEVER <= date {
            return Met::Nothing;
        }
        let p = lent.past(work, f, a, Date(date));
        let q = lent.past(work, g, b, Date(date));
        last = date;
        a = p.next;
        b = q.next;
        if sought(both, failing, p.step.at, q.step.at) {
            return Met::Instant(Scan {
                after: last,
                left: a,
                right: b,
            });
        }
    }
}

// How the run ends after which the second scan meets this.
fn end_met(met: Met) -> End
    ensures { result ≡ end_met met }
{
    match met {
        Met::Gap(at) => End::At(at.after),
        Met::Instant(at) => End::Before(at.after),
        Met::Nothing => End::Never,
    }
}

// The end of the failing run that the scan has met: the same scan, on from there, for the first moment that does not fail.
fn end_from(lent: Lent, work: &[u32], f: Source, g: Source, from: Scan) -> End
    requires { Standing (list_in lent work.now f) (list_in lent work.now g) from }
    ensures { EndsSo (list_in lent.entry work.now f)
        (list_in lent.entry work.now g) from result }
{
    end_met(seek(false, false, lent, work, f, g, from))
}

// Implication f to g of two lists where they stand, neither of them judged.
pub fn implies_at(lent: Lent, work: &[u32], f: Source, g: Source) -> Verdict
    ensures { let l = lent.entry in FoundAt l.sheet.now l.left.now l.right.now work.now f g result }
{
    let from = Scan {
        after: 0,
        left: lent.start(work, f),
        right: lent.start(work, g),
    };
    match seek(false, true, lent, work, f, g, from) {
        Met::Gap(at) => Verdict::FailsAfter(at.after, end_from(lent, work, f, g, at)),
        Met::Instant(at) => Verdict::FailsAt(at.after, end_from(lent, work, f, g, at)),
        Met::Nothing => Verdict::Holds,
    }
}

// The same scan along two accepted lists, which are the whole of the slices lent: nothing is to be chosen where a word is read.
fn seek_pair(both: bool, failing: bool, f: &[u32], g: &[u32], from: Scan) -> Met
    requires { (pair_fault f.now g.now ≡ 0) × Standing f.now g.now from }
    ensures { MeetsFrom both failing f.now g.now from result }
{
    let mut last = from.after;
    let mut x = from.left;
    let mut y = from.right;
    loop {
        if sought(both, failing, x.last % 2 == 1, y.last % 2 == 1) {
            return Met::Gap(Scan {
                after: last,
                left: x,
                right: y,
            });
        }
        let date = words::earlier(x.date, y.date);
        if NEVER <= date {
            return Met::Nothing;
        }
        let s = past_in(f, x, date);
        let t = past_in(g, y, date);
        last = date;
        x = s.next;
        y = t.next;
        if sought(both, failing, s.step.at, t.step.at) {
            return Met::Instant(Scan {
                after: last,
                left: x,
                right: y,
            });
        }
    }
}

// Where it stands at the start: in gap 0, the first words being passed.
fn start_pair(f: &[u32], g: &[u32]) -> Scan
    ensures { result ≡ start_scan f.now g.now }
{
    Scan {
        after: 0,
        left: start_in(f),
        right: start_in(g),
    }
}

// The end of the run met, as above.
fn end_from_pair(f: &[u32], g: &[u32], from: Scan) -> End
    requires { (pair_fault f.now g.now ≡ 0) × Standing f.now g.now from }
    ensures { EndsSo f.now g.now from result }
{
    end_met(seek_pair(false, false, f, g, from))
}

// Implication f to g: fails where f is up and g is down.
pub fn implies(f: &[u32], g: &[u32]) -> Verdict
    ensures { result ≡ implies_of f.now g.now }
{
    let fault = pair_fault(f, g);
    if fault != 0 {
        return Verdict::Refused(fault);
    }
    match seek_pair(false, true, f, g, start_pair(f, g)) {
        Met::Gap(at) => Verdict::FailsAfter(at.after, end_from_pair(f, g, at)),
        Met::Instant(at) => Verdict::FailsAt(at.after, end_from_pair(f, g, at)),
        Met::Nothing => Verdict::Holds,
    }
}

// Equality: no where some moment has two values.
pub fn equal(a: &[u32], b: &[u32]) -> Told
    ensures { result ≡ equal_of a.now b.now }
{
    let fault = pair_fault(a, b);
    if fault != 0 {
        return Told::Refused(fault);
    }
    match seek_pair(true, true, a, b, start_pair(a, b)) {
        Met::Nothing => Told::Yes,
        Met::Gap(_) | Met::Instant(_) => Told::No,
    }
}
