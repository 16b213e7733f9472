//! Structures, texts, carried modules and whole studies against answers that are known: tests only.
#![tactic(auto)]

#[cfg(test)]
mod carries;
#[cfg(test)]
mod entries;
#[cfg(test)]
mod feeds;
#[cfg(test)]
mod frames;
#[cfg(test)]
mod makers;
#[cfg(test)]
mod pairs;
#[cfg(test)]
mod shows;
#[cfg(test)]
mod steps;
#[cfg(test)]
mod support;
#[cfg(test)]
mod tables;
#[cfg(test)]
mod texts;
