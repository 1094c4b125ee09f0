// The static library for C, C++ and Rust: each exported function by its name in C, over the function of the exports that does the work and with
// its clauses.
#![tactic(auto)]

mod fronts;
mod listing;
mod reading;
mod replies;
mod requests;
mod table;
mod text_check;
