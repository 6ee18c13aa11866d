// Up stretches before a horizon (document 02, request 2) as definitions and theorems, and what the up-time call answers.
#![tactic(auto)]

// What the up-time call answers: how many words it wrote, two a stretch, and the total in ticks; or the fault number that refuses it.
#[derive(Clone, Copy)]
pub enum UpTime {
    Told { count: usize, total: u32 },
    Refused(u32),
}
