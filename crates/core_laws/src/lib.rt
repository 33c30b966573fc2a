//! Facts about the scheduling core's tables together: how they follow a journal. The functions do
//! nothing. Each one is a law, for a program that keeps the tables.
#![tactic(auto)]

pub mod laws;
