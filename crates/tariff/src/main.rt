// Reads calls, one a line, from standard input or from the files named as arguments, and answers each with a line.
#![tactic(auto)]

use console::run::run;

fn main(rt: HostRuntime) -> anyhow::Result<()> {
    run(&rt)
}
