//! Worked examples over the whole: words, files, an input, and what a run writes.
#![tactic(auto)]

#[cfg(test)]
mod choices;
#[cfg(test)]
mod devices;
#[cfg(test)]
mod entries;
#[cfg(test)]
mod equations;
#[cfg(test)]
mod faults;
#[cfg(test)]
mod rows;
