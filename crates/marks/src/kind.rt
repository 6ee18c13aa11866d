// The kinds of parts: the low four bits of a code word. Above them stand a timer's ticks, or of a name the count of its bytes
// in four bits and above it its place in the text.
pub const DOWN: u64 = 0;

pub const UP: u64 = 1;

pub const NAME: u64 = 2;

pub const NOT: u64 = 3;

pub const RISING: u64 = 4;

pub const FALLING: u64 = 5;

pub const TON: u64 = 6;

pub const TOF: u64 = 7;

pub const TP: u64 = 8;

pub const AND: u64 = 9;

pub const OR: u64 = 10;

pub const SR: u64 = 11;

pub const RS: u64 = 12;

// How many kinds there are.
pub const KINDS: u64 = 13;

// An open bracket: no kind of a part, but one of what begins a factor.
pub const BRACKET: u64 = 16;
