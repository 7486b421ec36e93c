//! The program drives boards by random calls, and compares every answer with registers that plain code keeps.
#![tactic(auto)]

mod calls;
mod certifying;
mod comparing;
mod drawing;
mod drill;
mod faults;
mod given;
mod pairing;
mod planning;
mod register;
mod room;
mod seeds;
mod side;
mod surveying;
mod tallies;

use anyhow::anyhow;

// The numbers of the refusals that boards give. A board never takes a channel that is not free, nor gives one back that is not taken, so it never gives 7 or 8; the others belong to sheets and to making certificates.
const GIVEN: [u8; 11] = [6, 9, 10, 11, 12, 13, 14, 15, 16, 17, 18];

fn run(rt: &HostRuntime) -> anyhow::Result<()> {
    let tally = seeds::drill_all(rt)?;
    println!(rt; "{tally}")?;
    for number in GIVEN {
        let refused = tally.refused(number);
        println!(rt; "refused {number}: {refused}")?;
        if refused == 0 {
            return Err(anyhow!("a refusal that boards give did not occur"));
        }
    }
    Ok(())
}

fn main(rt: HostRuntime) -> anyhow::Result<()> {
    run(&rt)
}
