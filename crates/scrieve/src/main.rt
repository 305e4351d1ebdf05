// The command-line tool. What it does stands in the crate `tool`; this run shows a table of every kind.
#![tactic(auto)]

use std::process::ExitCode;

fn main(rt: HostRuntime) -> ExitCode {
    tool::run(&rt)
}
