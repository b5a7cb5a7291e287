//! Tests of the lines that tokens spell: the productions of the grammar, the faults and the limits.
#![tactic(auto)]

#[cfg(test)]
mod expressions;
#[cfg(test)]
mod headers;
#[cfg(test)]
mod limits;
#[cfg(test)]
mod long;
#[cfg(test)]
mod numbering;
#[cfg(test)]
mod page;
#[cfg(test)]
mod statements;
#[cfg(test)]
mod tables;
