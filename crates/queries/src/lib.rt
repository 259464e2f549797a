//! What commands ask of the documents of a collection in a file: those that are looked for, how many match, and those that a
//! pipeline needs. A walk reads them batch by batch and keeps what is looked for; where they are asked for by their `_id`s or by an
//! index, they are looked up.
#![tactic(auto)]

mod by_order;
mod counting;
mod id_order;
mod index_order;
mod looked_up;
mod looking_up;
mod needed;
mod needed_by_order;
mod ordering;
mod partly_told;
mod piping;
mod sorted_ids;
mod taken_by;

pub use counting::count_in;
pub use id_order::keeps_id_order;
pub use index_order::{IndexOrder, order_asked};
pub use looked_up::{LookedUp, looked_up_first};
pub use looking_up::selected_in;
pub use ordering::ordered_in;
pub use piping::piped_in;
pub use sorted_ids::ordered_ids_in;
