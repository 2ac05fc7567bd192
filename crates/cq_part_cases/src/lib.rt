//! Trials of parts, of what neither a contract nor a reply of the program shows: ends over std's readers and writers, how often
//! the keys of a text's windows are computed from the start, the plain list of groups of `cq_scan`, which no command calls,
//! cells under their locks on real threads, a worker's turn that finds no memory, how often both hubs look at the keys of a
//! work, and what a sweep lets go of.
#![tactic(auto)]

#[cfg(test)]
mod ends;
#[cfg(test)]
mod keys;
#[cfg(test)]
mod made;
#[cfg(test)]
mod publishing;
#[cfg(test)]
mod scans;
#[cfg(test)]
mod sweeping;
#[cfg(test)]
mod telling;
#[cfg(test)]
mod turning;
