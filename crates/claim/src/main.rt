// Reads formula F, formula G and a sheet from standard input, and prints whether F's claim on G holds there.
#![tactic(auto)]

// Writes the line of what was read.
fn print(rt: &(impl Print + Eprint), input: &[u8; inputs::BYTES], n: usize) {
    let line = claim_line::line_of(input, n);
    if rt.write_all(line.as_slice()).is_err() {
        let _ = eprintln!(rt; "claim: standard output cannot be written");
    }
}

fn main(rt: HostRuntime) {
    let mut input = inputs::buffer();
    match standard_input::read(rt.stdin(), &mut input) {
        Ok(n) => print(&rt, &input, n),
        Err(_) => {
            let _ = eprintln!(rt; "claim: standard input cannot be read");
        }
    }
}
