// Runs instances that park, most of them in threads, and prints of each run whether it is as it must be.
#![tactic(auto)]

mod alone;
mod together;

use crate::alone::{alone_goes_on, keeps_wakes};
use crate::together::{Run, Waits};
use std::io;

fn main(rt: HostRuntime) -> io::Result<()> {
    println!(rt;
        "a commit or an end before the parking isn't waited for: {}",
        keeps_wakes(&rt)
    )?;
    println!(rt; "one alone goes on: {}", alone_goes_on(&rt, 1))?;
    println!(rt;
        "one goes on where others don't begin: {}",
        alone_goes_on(&rt, 3)
    )?;
    for (instances, times) in [(2, 500), (3, 200), (4, 100)] {
        let run = Run::ring(instances, times);
        println!(rt;
            "a ring of {instances}, each {times} times: {} commits",
            run.commits(&rt, rt.alloc())?
        )?;
    }
    for instances in [2, 64] {
        let run = Run::of(instances, Waits::ForTheFirst, 2);
        println!(rt;
            "{instances} of which all but one are blocked until it commits: {} commits",
            run.commits(&rt, rt.alloc())?
        )?;
    }
    for instances in [2, 64] {
        let run = Run::of(instances, Waits::ForEver, 100);
        println!(rt;
            "{instances} that are blocked for ever: {} commits",
            run.commits(&rt, rt.alloc())?
        )?;
    }
    Ok(())
}
