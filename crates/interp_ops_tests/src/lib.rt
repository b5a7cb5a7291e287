//! Tests of the operations on values: tables of values, events and steps, by hand from the rules.
#![tactic(auto)]

#[cfg(test)]
mod attributes;
#[cfg(test)]
mod bounds;
#[cfg(test)]
mod calls;
#[cfg(test)]
mod direct;
#[cfg(test)]
mod pairs;
#[cfg(test)]
mod primitives;
#[cfg(test)]
mod showing;
#[cfg(test)]
mod single;
#[cfg(test)]
mod tables;
#[cfg(test)]
mod things;
#[cfg(test)]
mod told;
#[cfg(test)]
mod whole_events;
#[cfg(test)]
mod words;
