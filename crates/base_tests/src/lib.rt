//! Tests of terms, of sources and sinks, and of the readers and writers of lines and of documents, over
//! their public calls: worked values, printed texts, that each call finds memory, and ends that fail.
//! They stand in a crate of their own, since a crate with tests is proved once more for them.
#![tactic(auto)]

#[cfg(test)]
mod documents;
#[cfg(test)]
mod doors;
#[cfg(test)]
mod input_output;
#[cfg(test)]
mod lines;
#[cfg(test)]
mod terms;
#[cfg(test)]
mod validity;
