//! Tests of the libraries of values, by rows worked by hand: what of `value_order`, `index`, `entries`, `planner` and
//! `ext_json` no command reaches. The rows of BSON and Extended JSON are scripts (crates/scripts/data).
#![tactic(auto)]

#[cfg(test)]
mod catalogue;
#[cfg(test)]
mod entry_ids;
#[cfg(test)]
mod growths;
#[cfg(test)]
mod index_keys;
#[cfg(test)]
mod key_texts;
#[cfg(test)]
mod rows;
