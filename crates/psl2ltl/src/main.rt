// Standard input: a PSL formula, then traces. Standard output: its LTL table, then both verdicts on each trace.
#![tactic(auto)]

use std::process::ExitCode;

fn main(rt: HostRuntime) -> ExitCode {
    match turns::take_turns(&mut rt.stdin(), &mut rt.stdout()) {
        Ok(()) => ExitCode::SUCCESS,
        Err(e) => {
            let _ = eprintln!(&rt; "psl2ltl: {e}");
            ExitCode::FAILURE
        }
    }
}
