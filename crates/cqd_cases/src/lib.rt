//! Trials of the whole program: `top` over ends in memory, of which a call may fail or take only some bytes, and clients on a
//! stage. What lines of input and their replies can show is in the files of cases/.
#![tactic(auto)]

#[cfg(test)]
mod calls;
#[cfg(test)]
mod clients;
#[cfg(test)]
mod failing;
#[cfg(test)]
mod held;
#[cfg(test)]
mod logs;
#[cfg(test)]
mod running;
