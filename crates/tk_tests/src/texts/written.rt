//! Texts that are written, and read back.
mod limits;
mod matrices;
mod read_back;
mod writers;
