//! Tests of `py_print`: cells that are put together and printed, and texts that are parsed and printed.
#![tactic(auto)]

#[cfg(test)]
mod printed;
#[cfg(test)]
mod tests;
