//! Examples worked by hand, as tests of the calls of the crates below the program, with ample memory.
#![tactic(auto)]

#[cfg(test)]
mod antichains;
#[cfg(test)]
mod arenas;
#[cfg(test)]
mod aut_texts;
#[cfg(test)]
mod batches;
#[cfg(test)]
mod built;
#[cfg(test)]
mod demos;
#[cfg(test)]
mod devices;
#[cfg(test)]
mod energies;
#[cfg(test)]
mod escapes;
#[cfg(test)]
mod formula_texts;
#[cfg(test)]
mod lanes;
#[cfg(test)]
mod line_readers;
#[cfg(test)]
mod node_lines;
#[cfg(test)]
mod notion_texts;
#[cfg(test)]
mod notions;
#[cfg(test)]
mod prices;
#[cfg(test)]
mod printed_formulas;
#[cfg(test)]
mod quoted_labels;
#[cfg(test)]
mod reports;
#[cfg(test)]
mod rows;
#[cfg(test)]
mod samples;
#[cfg(test)]
mod sheets;
#[cfg(test)]
mod solutions;
#[cfg(test)]
mod systems;
#[cfg(test)]
mod tokens;
#[cfg(test)]
mod truths;
#[cfg(test)]
mod weight_texts;
#[cfg(test)]
mod weights;
#[cfg(test)]
mod written_prices;
