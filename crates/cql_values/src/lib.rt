//! The values of CQL's types: their protocol bytes, their literals, and bytes whose plain order is their order.
#![tactic(auto)]

mod error;
mod laws;
mod literal;
mod order;
mod print;
mod protocol;
mod reading;
mod scan;
mod value;

pub use error::{LiteralError, OrderError, ValueError};
pub use laws::{
    clustering_values_compare, decoding_undoes_encoding, encoding_undoes_decoding,
    order_bytes_keep_the_order, reading_undoes_printing,
};
pub use literal::read_literal;
pub use order::order_bytes;
pub use print::print_literal;
pub use protocol::{decode, encode};
pub use reading::read_order;
pub use value::{CqlType, CqlValue, Literal, LiteralKind};
