//! The texts that several crates write: numbers in decimal, bytes in hexadecimal, addresses of ports.
#![tactic(auto)]

mod address;
mod decimal;
mod hex;
#[cfg(test)]
mod tests;

pub use address::push_port_addr;
pub use decimal::push_decimal;
pub use hex::{
    hex_of, overwrite, overwrite_spaced_line, push_hex_line, push_spaced, push_spaced_line,
};
