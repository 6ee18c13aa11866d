// What a part's code word holds: its name in the text, where its list stands, how many operands it has. Other code words are taken for
// these, so that every call has an answer.
#![tactic(auto)]

ghost use Rattle.std.specs.Prelude.{◌≡◌, ◌/◌, ◌%◌};
ghost use Rattle.grammar.specs.PartWords.{name_at};
ghost use Rattle.code_words.specs.CodeWords.{constant_of, leaf_source, operands_of};

use marks::kind;
use sources::{Memory, Source};

// The name that a code word holds, cut at the end of the text.
pub fn name_in(text: &[u8], code: u64) -> &[u8]
    ensures { result.now ≡ name_at text.now (code / 256) (code / 16 % 16) }
{
    let place = (code / 256) as usize;
    let count = (code / 16 % 16) as usize;
    if text.len() <= place {
        return &text[..0];
    }
    if text.len() - place <= count {
        return &text[place..];
    }
    &text[place..place + count]
}

// The words of the constants' lists.
pub const CONSTANTS: [u32; 2] = [0, 1];

// The one word of a constant's list, which is its place among them.
fn constant(code: u64) -> u32
    ensures { result ≡ constant_of code }
{
    if code % 16 == kind::UP { 1 } else { 0 }
}

// Where the list of a part without operands stands: a name's on the sheet, where its word says, a constant's among the two.
pub fn leaf(code: u64) -> Source
    ensures { result ≡ leaf_source code }
{
    if code % 16 == kind::NAME {
        return Source {
            memory: Memory::Sheet,
            at: (code / 8192 % 4294967296) as u32,
            count: (code / 16 % 512) as u32,
        };
    }
    Source {
        memory: Memory::Left,
        at: constant(code),
        count: 1,
    }
}

// How many operands the part takes.
pub fn operands(code: u64) -> usize
    ensures { result ≡ operands_of code }
{
    let kind = code % 16;
    if kind < kind::NOT {
        return 0;
    }
    if kind < kind::AND {
        return 1;
    }
    if kind < kind::KINDS {
        return 2;
    }
    0
}
