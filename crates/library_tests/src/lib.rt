//! Tests of libraries: of values, their order, their merging and their texts, of the words of lines, of byte streams and of `show`; of
//! objects and messages, with bytes from outside; of a router's tables, and of whom it tells of errors and confirmations; of trees
//! and of the demand that they make. A module has the tests of one crate, or what crosses several.
//!
//! There is nothing here but tests: a crate that has tests is proved twice, and these crates are not. Each vector was written by
//! hand from the figures of RFC 2205 and RFC 2210, and its checksum was computed by another program.
#![tactic(auto)]

#[cfg(test)]
mod adspecs;
#[cfg(test)]
mod blockade_tables;
#[cfg(test)]
mod books;
#[cfg(test)]
mod demands;
#[cfg(test)]
mod error_answers;
#[cfg(test)]
mod flows;
#[cfg(test)]
mod keyed_tables;
#[cfg(test)]
mod lane_tables;
#[cfg(test)]
mod line_readers;
#[cfg(test)]
mod local_tables;
#[cfg(test)]
mod message_tests;
#[cfg(test)]
mod message_vectors;
#[cfg(test)]
mod networks;
#[cfg(test)]
mod object_tests;
#[cfg(test)]
mod object_vectors;
#[cfg(test)]
mod path_tables;
#[cfg(test)]
mod pools;
#[cfg(test)]
mod readings;
#[cfg(test)]
mod reports;
#[cfg(test)]
mod resv_tables;
#[cfg(test)]
mod streams;
#[cfg(test)]
mod styles;
#[cfg(test)]
mod texts;
#[cfg(test)]
mod trees;
#[cfg(test)]
mod values;
#[cfg(test)]
mod vector_tests;
#[cfg(test)]
mod words;
