//! The library for C: a static library. Each function calls the function of the same name in the crate `tk_for_c`,
//! where a comment says what it does, and promises the same.
//!
//! An exported function requires nothing of its caller beyond the types of its parameters. It keeps nothing from one
//! call to the next.
#![tactic(auto)]

mod arrays;
mod contents;
mod searches;
mod texts;
mod version;
