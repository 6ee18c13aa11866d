// Standard input, read into the buffer of a program's input.
#![tactic(auto)]

ghost use Rattle.std.specs.Io.{ReadsAtMost};
ghost use Rattle.standard_input.specs.Reading.{ReadInto};

use inputs::BYTES;
use std::io;
use std::io::{Read, Stdin};

// Reads until the input ends, the space is full or a read fails; how many bytes.
pub fn fill(mut stdin: Stdin, space: &mut [u8]) -> io::Result<usize>
    ensures { ReadsAtMost result space.new }
{
    let mut done: usize = 0;
    while done < space.len() {
        let more = stdin.read(&mut space[done..])?;
        if more == 0 {
            return Ok(done);
        }
        done += more;
    }
    Ok(done)
}

// Reads until the input ends, the buffer is full or a read fails; how many bytes.
pub fn read(stdin: Stdin, buffer: &mut [u8; BYTES]) -> io::Result<usize>
    ensures { ReadInto result buffer.new }
{
    fill(stdin, buffer)
}
