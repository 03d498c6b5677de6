// The office's tool as a program: hands its number on as the exit status.
#![tactic(auto)]

use std::process::ExitCode;

fn main(rt: HostRuntime) -> ExitCode {
    ExitCode::from(office::cards_run(&rt, &rt.stdout()) as u8)
}
