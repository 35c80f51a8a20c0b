//! Tests of the top call that no row of `rows` can say: faults of folders and sinks in memory, files over their limits, class files with each fault,
//! and lanes whose order is up to the threads; of the gate that keeps events; and of sessions whose calls are held (`held`). They stand apart, so that the
//! crates below are proved once and not a second time with their tests.
#![tactic(auto)]

#[cfg(test)]
mod faults;
#[cfg(test)]
mod fixture;
#[cfg(test)]
mod folders;
#[cfg(test)]
mod gates;
#[cfg(test)]
mod held;
#[cfg(test)]
mod lanes;
#[cfg(test)]
mod log_gate;
#[cfg(test)]
mod machine_files;
#[cfg(test)]
mod spoiled;
