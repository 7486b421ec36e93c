//! The sample task: the sample sheet read, and a day at its exchange.
use crate::sheet::print_sheet;
use crate::source::perform_on_sheet;
use crate::task::Task;
use anyhow::anyhow;
use samples::Sample;

/// A day at the exchange of the sample, as a script.
pub const DAY: &str = "\
# a day at the exchange
survey 0
quote 0 5

# a closing makes a cut of the pair
close 2
quote 0 5
reopen 2
quote 0 5

# circuit 7 is held, and withdrawn
link 0
link 1
link 2
link 3
link 4
link 5
link 6
hold 7 0 5
circuits
quote 0 5
hold 8 0 5
withdraw 7
quote 0 5

# circuit 7 is held again, and confirmed; a later surcharge leaves its certificate
hold 7 0 5
confirm 7
circuits
surcharge 5 300
link 0
link 1
link 2
link 3
link 4
link 5
link 6
certificate 7
surcharge 5 0

# circuit 7 is released, and can be held again; with a surcharge its certificate has the metres that are shown then
release 7
circuits
link 0
link 1
link 2
link 3
link 4
link 5
link 6
surcharge 5 300
hold 7 0 5
confirm 7
certificate 7
release 7
surcharge 5 0
confirm 7
hold 7 0 4 poles
";

/// Does the sample task.
pub fn sample_task(rt: &HostRuntime) -> anyhow::Result<()> {
    let Ok(bytes) = Sample::Exchange.bytes(rt.alloc()) else {
        return Err(anyhow!("there is no memory for the sample"));
    };
    let name = Sample::Exchange.file_name();
    let count = bytes.len();
    println!(rt; "{name}, {count} bytes")?;
    print_sheet(rt, bytes.as_slice())?;
    println!(rt; "a day on a board over this sheet")?;
    perform_on_sheet(rt, bytes.as_slice(), Task::Run { script: DAY })
}
