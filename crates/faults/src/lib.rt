//! What no row asks of the public calls and no program shows: readers, writers, files and sources that fail, and memory that is refused,
//! each call in turn; and with bytes in memory: how many patterns an index asks, orders, and texts that are shown. Tests alone.
#![tactic(auto)]

#[cfg(test)]
mod asked;
#[cfg(test)]
mod compare;
#[cfg(test)]
mod fakes;
#[cfg(test)]
mod files;
#[cfg(test)]
mod lists;
#[cfg(test)]
mod lists_from_readers;
#[cfg(test)]
mod refused_memory;
#[cfg(test)]
mod shown;
#[cfg(test)]
mod told;
#[cfg(test)]
mod trees;
#[cfg(test)]
mod values;
#[cfg(test)]
mod watched;
