//! The commands of `ntboot` for programs in C and Python, over bytes that the caller owns. `include/ntboot.h` declares the one call.
#![tactic(auto)]

mod answer;
mod call;
mod inputs;
mod outputs;
mod words;
