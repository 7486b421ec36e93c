//! What the program can do.

const TEXT: &str = "resklodan: networks of leased fibre

  resklodan              a sample task from beginning to end: reads the sample sheet, prints its
                         records and totals, and runs a script, a day at its exchange, on a
                         board over it
  resklodan read FILE    prints the records of a sheet, each with its place, and the totals
  resklodan quote FILE ROOT TARGET [length|poles]
                         prints the least pair of routes from one site to another that share no
                         link: 'pair TOTAL', then 'one' and 'two' with the numbers of their
                         links, then the routes link by link. Where every route uses one link,
                         'cut LINK' and that link; where no route leads there, 'none'
  resklodan survey FILE ROOT [length|poles]
                         prints 'root R sites N links M', then a line for each other site: its
                         number; 'pair' and the total, 'cut' and the link, or 'none 0'; its name
  resklodan board FILE SCRIPT
                         begins a board over the network and runs the script on it, one call to a
                         line; prints each call after '>', and below it what came of it
  resklodan certificate FILE
                         prints the fields of a certificate, a line for each with its name first
  resklodan help         prints this

FILE is a sheet, or the bytes of a certificate; it may be - for standard input. In quote, survey and
board it may also be grid:COLUMNS:ROWS:ALONG:ACROSS:CHANNELS, a street grid with streets of ALONG metres
along the rows and of ACROSS metres across them. Sites are told by number. With length, or with no
such word, the least pair has the fewest metres; with poles the fewest metres on poles, of equals
the fewest metres, and its total is these two numbers. A site without a name is called by its
number.

The calls of a script, where a LINK is told by its number and CIRCUIT is 1 to 32:

  close LINK             closes a link; 'reopen LINK' opens it again
  surcharge LINK METRES  sets the metres that are added to a link's own
  link LINK              prints a link's ends, metres, pole metres, channels and light
  quote ROOT TARGET [length|poles], survey ROOT [length|poles]
                         print what the commands of these names print
  hold CIRCUIT ROOT TARGET [length|poles]
                         holds the pair that a quote prints: takes a channel on each of its links,
                         and keeps the sums of its lengths
  confirm CIRCUIT        confirms the circuit whose hold is in hand; 'withdraw CIRCUIT' gives up
                         the hold and its channels
  release CIRCUIT        gives up a confirmed circuit and its channels
  certificate CIRCUIT [FILE]
                         prints the certificate of a confirmed circuit, its bytes and its fields,
                         and writes the bytes to the file
  circuits               prints a line for each circuit that is held or confirmed: its number,
                         how it stands, root, target, metres and pole metres

A # begins a comment. A line that is no call is told by its number, and the script goes on. Holds
that are in hand at the end are withdrawn. SCRIPT may be - for standard input, if FILE is not.

A bad sheet, and bytes that are no certificate, print 'fault NUMBER at PLACE' and below it the rule
that the record broke. Any other refusal prints 'refused NUMBER' and its rule. A refusal is an
answer: the program ends with status 0. It ends with status 1 where a file cannot be read, memory
is wanting, a command is not one of these or has other words, or a number is none or too large.";

/// Prints what the program can do.
pub fn print_help(rt: &HostRuntime) -> anyhow::Result<()> {
    println!(rt; "{TEXT}")?;
    Ok(())
}
