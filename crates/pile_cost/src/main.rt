// What it costs to read a pile of layers, by its depth: pile_cost REPEATS prints the time to read all rules, and to ask for the
// three numbers, at depth 1, 2, 4 and 8.
// A pile that asked the rack below twice at each layer would need 128 times as long at depth 8 as at depth 1.
#![tactic(auto)]

use anyhow::anyhow;
use layers::amended::Amended;
use layers::withheld::Withheld;
use laying::fault::RackFault;
use laying::open_rack::OpenRack;
use laying::pocket::PocketRack;
use racks::rack::Rack;
use rules::record::Record;
use rules::refusal::Refusal;
use std::env;
use std::time::Instant;

fn main(rt: HostRuntime) -> anyhow::Result<()> {
    let Some(word) = env::args(&rt)?.skip(1).next() else {
        println!(rt; "pile_cost REPEATS: the time to read a pile of 1, 2, 4 and 8 layers")?;
        return Ok(());
    };
    let repeats = word.parse::<u32>()?;
    let pocket = full_pocket().map_err(|fault| anyhow!("refused {}", fault.number()))?;
    let one = Withheld::new(pocket, 40);
    show(&rt, 1, &one, repeats)?;
    let two = Amended::new(one);
    show(&rt, 2, &two, repeats)?;
    let four = Amended::new(Withheld::new(two, 41));
    show(&rt, 4, &four, repeats)?;
    let eight = Amended::new(Withheld::new(Amended::new(Withheld::new(four, 42)), 43));
    show(&rt, 8, &eight, repeats)
}

// A pocket rack with a rule in each of its places.
fn full_pocket() -> Result<PocketRack, RackFault> {
    let mut rack = PocketRack::new();
    rack.begin()?;
    for _ in 0..64 {
        rack.lay(Record {
            head: 0,
            sign: 1,
            yes: 0,
            no: 0,
        })?;
    }
    Ok(rack)
}

fn show<R: Rack>(rt: &HostRuntime, depth: u8, pile: &R, repeats: u32) -> anyhow::Result<()> {
    let read = timed(rt, repeats, || pile.read().len() as u64)?;
    let shape = timed(rt, repeats, || u64::from(pile.shape().rules))?;
    println!(rt; "depth {depth}: {read} ns to read all rules, {shape} ns for the three numbers")?;
    Ok(())
}

// Nanoseconds for one time that a count is asked for.
fn timed<F: Fn() -> u64>(rt: &HostRuntime, repeats: u32, ask: F) -> anyhow::Result<u128>
    requires { F.IsAlwaysCallable ask }
{
    let start = Instant::now(rt)?;
    let seen = (0..repeats).fold(0u64, |sum, _| sum.wrapping_add(ask()));
    let nanos = start.elapsed(rt)?.as_nanos();
    // The sum is looked at, so that no question is left out.
    if seen == u64::MAX {
        println!(rt; "{seen} rules")?;
    }
    Ok(nanos / u128::from(repeats.max(1)))
}
