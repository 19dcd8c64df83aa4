// Reads a script of calls on standard input and writes the answers to standard output, from an empty filter, pair and filter at f32 on.
#![tactic(auto)]

use std::io;

fn main(rt: HostRuntime) -> io::Result<()> {
    runs::run(&rt, lines::start())?;
    Ok(())
}
