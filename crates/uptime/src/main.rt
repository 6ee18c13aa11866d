// Reads a name, a horizon and a sheet from standard input, and prints the up-time page of the name's signal there.
#![tactic(auto)]

// Writes the page of what was read.
fn print(rt: &(impl Print + Eprint), input: &[u8; inputs::BYTES], n: usize) {
    let page = uptime_page::page_of(input, n);
    if rt.write_all(page.as_slice()).is_err() {
        let _ = eprintln!(rt; "uptime: standard output cannot be written");
    }
}

fn main(rt: HostRuntime) {
    let mut input = inputs::buffer();
    match standard_input::read(rt.stdin(), &mut input) {
        Ok(n) => print(&rt, &input, n),
        Err(_) => {
            let _ = eprintln!(rt; "uptime: standard input cannot be read");
        }
    }
}
