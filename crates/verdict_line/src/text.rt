// A text by value: an array that has room for the longest, the text's bytes first and zeros past them, and how many they are.
ghost use Rattle.std.specs.Prelude.{◌≡◌, [], take};
ghost use Rattle.texts.specs.Decimal.{decimal};
ghost use Rattle.verdict_line.specs.Written.{Filled, pushed};

// A text of at most N bytes: as many of the array as the count says, those past them being zeros.
#[derive(Clone, Copy)]
pub struct Text<const N: usize> {
    pub bytes: [u8; N],
    pub count: usize,
    pub ghost filled: { Filled N (take count bytes) bytes count },
}

impl<const N: usize> Text<N> {
    // A text of no bytes.
    pub fn new() -> Self
        ensures { take result.«count» result.«bytes» ≡ [] }
    {
        Text {
            bytes: [0; N],
            count: 0,
        }
    }

    // Adds bytes at the end, nothing where there is no room for all of them.
    pub fn push(&mut self, bytes: &[u8])
        ensures { take self.new.«count» self.new.«bytes» ≡ pushed N (take self.old.«count» self.old.«bytes») bytes.now }
    {
        if bytes.len() <= N - self.count {
            slices::put(&mut self.bytes, self.count, bytes);
            self.count += bytes.len();
        }
    }

    // Adds a number in decimal at the end, nothing where there is no room for all its digits.
    pub fn push_number(&mut self, n: u32)
        ensures { take self.new.«count» self.new.«bytes» ≡ pushed N (take self.old.«count» self.old.«bytes») (decimal n) }
    {
        let mut digits = [0u8; 10];
        let count = texts::put_number(&mut digits, 0, n);
        self.push(&digits[..count]);
    }

    // Its bytes.
    pub fn as_slice(&self) -> &[u8]
        ensures { result.now ≡ take self.now.«count» self.now.«bytes» }
    {
        &self.bytes[..self.count]
    }
}
