// The program of document 01, "Sample reads": solid.set and job from its folder, a batch on input.
#![tactic(auto)]

use std::io;

fn main(rt: HostRuntime) -> io::Result<()> {
    run::run(&rt, "solid.set", "job", Ok(rt.stdin()))
}
