//! What is said of each run, and of all.

use crate::choosing::{Verdict, decide_run};
use crate::seen::Trace;
use sedck_script::Script;
use std::io;

/// How many runs and steps there are, and how many of each answer.
#[derive(Default, Drop)]
pub struct Counts {
    runs: u64,
    steps: u64,
    refused: u64,
    undecided: u64,
}

impl Counts {
    /// Says whether what was seen is a run of the model, where anything was seen.
    pub fn report(
        &mut self,
        rt: &(impl Print + AllocGlobal),
        script: &Script,
        trace: &Trace,
    ) -> io::Result<()> {
        if trace.name.is_empty() {
            return Ok(());
        }
        let steps = trace.states.len() as u64;
        self.runs = self.runs.saturating_add(1);
        self.steps = self.steps.saturating_add(steps);
        let name = &trace.name;
        match decide_run(rt.alloc(), script, trace)? {
            Verdict::Follows => println!(rt; "{name}: {steps} steps"),
            Verdict::Refused(number) => {
                self.refused = self.refused.saturating_add(1);
                println!(rt; "{name}: refused at {number}")
            }
            Verdict::Undecided(open) => {
                self.undecided = self.undecided.saturating_add(open as u64);
                println!(rt; "{name}: {steps} steps, {open} not decided")
            }
        }
    }

    /// Says how many there were in all; the exit status.
    pub fn summary(&self, rt: &impl Print) -> io::Result<u8> {
        let Counts {
            runs,
            steps,
            refused,
            undecided,
        } = self;
        println!(rt; "{runs} runs, {steps} steps, {refused} refused, {undecided} not decided")?;
        Ok(if *refused == 0 { 0 } else { 1 })
    }
}
