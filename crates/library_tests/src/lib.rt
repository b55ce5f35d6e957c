//! What no row of `shex_rows` or `text_rows` can show of the libraries: large documents, counts of steps, sessions, files of the
//! machine. The libraries themselves have no tests, since a crate with tests is proved twice, and tests in one crate share what the
//! linked code of all libraries costs.
#![tactic(auto)]

#[cfg(test)]
#[tactic(auto, unfolding(tally::specs::Symbols::IsDistinct, tally::specs::Span::IsSound))]
mod counts;
#[cfg(test)]
mod documents;
#[cfg(test)]
mod files;
#[cfg(test)]
mod graphs;
#[cfg(test)]
mod patterns;
#[cfg(test)]
mod refinements;
#[cfg(test)]
mod samples;
#[cfg(test)]
mod scripts;
#[cfg(test)]
mod sessions;
#[cfg(test)]
mod tables;
#[cfg(test)]
mod verdicts;
