// The program `tariff` again, run on files that are named as arguments: one with every command and every error, and one that goes on with its area and host.
#![tactic(auto)]

use console::run::run;

fn main(rt: HostRuntime) -> anyhow::Result<()> {
    run(&rt)
}
