//! How likely it is that a sink is cut off from every source, enclosed between two numbers.
//!
//! Members fail by themselves, each at its rate. `enclose` answers a lower and an upper bound of
//! the sink's failure mass in units of 10^-18: the two numbers that conditioning on each member in
//! turn gives, each step rounded down for the first and up for the second, exactly as `arch_model`
//! defines them. They hold the mass between them and are at most 2 apart for each member, and the
//! mass is at most the sink's weight.
//!
//! Conditioning (the textbook's pivotal decomposition, or factoring) has 2^n cases for n members.
//! Both roundings keep a value that both cases share, so the code looks only at the members that
//! still matter: an absent member, one that never fails, or one that lies on no path that is left
//! makes no case, and one that always fails makes one. Where the failed members part the sink the
//! value is 10^18, and where all that may still fail wouldn't part it, it is 0.
//!
//! What it costs: a case in which a member fails is searched twice, down from the sources and up
//! from the sink, for whether the sink is reached and which members still matter. One in which it
//! works is searched once, for whether those that may still fail can part the sink: without that
//! the cases of a sink that is safe would be gone through one by one. All searches go over one
//! table of edges as long as no edge has failed. For k chains of m members side by side that is
//! still m^k cases that part the sink. It takes no memory: the sets lie on the stack, and calls are
//! nested at most twice for each member that may fail, of which a library has at most 64.
//!
//! Stands on `arch_model` and `paths`.
#![tactic(auto)]

mod between;
mod conditioning;
mod enclosing;
mod mixing;
mod network;
mod undecided;

pub use enclosing::enclose;

#[cfg(test)]
mod tests;
