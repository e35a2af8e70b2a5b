// Reads a packed rule file on standard input and prints every outcome that its sheets allow, or why the file is refused.
#![tactic(auto)]

use report::listing::{INPUT, OUTPUT, list_file};
use std::io;
use std::io::{Read, Write};

fn main(rt: HostRuntime) -> io::Result<()> {
    let mut input = Vec::new(rt.alloc());
    rt.stdin().take(INPUT as u64).read_to_end(&mut input)?;
    let mut output = [0; OUTPUT];
    let len = list_file(&input, &mut output);
    let mut sink = rt.stdout();
    sink.write_all(&output[..len])?;
    sink.flush()
}
