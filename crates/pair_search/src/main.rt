//! The program holds the planner to plain enumeration: on an example network, on every small network, and on a sample of larger ones.
#![tactic(auto)]

mod comparing;
mod drawing;
mod example;
mod faults;
mod links;
mod planning;
mod sampled;
mod small;
mod tallies;

fn run(rt: &HostRuntime) -> anyhow::Result<()> {
    example::show(rt)?;
    let small = small::compare_every_network(rt)?;
    println!(rt; "small networks: {small}")?;
    let sampled = sampled::compare_sample(rt)?;
    println!(rt; "sampled networks: {sampled}")?;
    Ok(())
}

fn main(rt: HostRuntime) -> anyhow::Result<()> {
    run(&rt)
}
