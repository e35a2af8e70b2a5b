// Plays a counter's day: reads a script on standard input, a call a line, and prints what each did.
#![tactic(auto)]

use script::day::play_script;
use std::io::{Read, Write};

// The longest script, in bytes.
const LONGEST: u64 = 1_048_576;

fn main(rt: HostRuntime) -> anyhow::Result<()> {
    let mut input = Vec::new(rt.alloc());
    let mut source = rt.stdin().take(LONGEST);
    source.read_to_end(&mut input)?;
    let text = play_script(rt.alloc(), &input)?;
    let mut sink = rt.stdout();
    sink.write_all(text.as_bytes())?;
    sink.flush()?;
    Ok(())
}
