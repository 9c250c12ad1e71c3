// A macroblock predicted into a lent output of 384 bytes, which a refused call leaves as it was. `codes` is what a call's codes are refused for,
// if they are: that comes after the prediction's own refusal and before that of the output. Every call for C that predicts, a macroblock or a whole
// frame of them, makes one of these, and so each prediction has one caller in the library, and the compiler inlines it.
// The planes, their sizes and the place are parameters of their own, by a rule of the project: the core takes plain slices, as C hands them over.
#![tactic(auto)]

mod into;
mod samples;

pub use into::{Ended, quarters_into, split_into, whole_into};
