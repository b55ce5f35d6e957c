//! The top call of the program `shex`: from the words and the files to the answers that are printed and the proof that is stored.
#![tactic(auto)]

mod answers;
mod checking;
mod deciding;
mod drilling;
mod head;
mod report;
mod stop;
mod top;
mod upgrading;

pub use top::run;
