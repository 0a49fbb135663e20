//! Reads and writes the packets of the Gearman binary protocol.
//!
//! `Kind` is the table of the requests, `Request::read` says what the data of a packet mean, and
//! `write_request` and `write_response` append whole packets. `read_decimal` reads the numbers of packets and
//! of text lines. `laws` has the laws that hold for all packets.
#![tactic(auto)]

mod arguments;
mod decimal;
mod header;
mod kind;
pub mod laws;
mod request;
mod response;
mod texts;
mod writing;

pub use arguments::{function_and_limit, read_timeout, stripped};
pub use decimal::read_decimal;
pub use header::{BadMagic, Header, REQUEST_MAGIC, RESPONSE_MAGIC, read_header};
pub use kind::Kind;
pub use request::{Request, RequestFault, request_fits, write_request};
pub use response::{Response, response_fits, response_len, write_response};
