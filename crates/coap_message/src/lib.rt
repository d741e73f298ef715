//! CoAP messages and their encoding as bytes (RFC 7252, 3).
//!
//! # First use
//!
//! ```rust
//! let request = decode(alloc, b"\x40\x01\x12\x34\xB1t")?; // a Confirmable GET of /t
//! assert!(rt; request.kind == Kind::Con && request.code == Code::GET && request.id == 0x1234);
//! let mut out = Datagram::new(alloc, 64)?;
//! encode_into(&request, &mut out, 64)?;
//! assert_eq!(rt; out.bytes(), b"\x40\x01\x12\x34\xB1t".as_slice());
//! ```
#![tactic(auto)]

mod code;
mod datagram;
mod error;
mod integers;
mod kind;
pub mod laws;
mod message;
mod option_list;
mod options;
mod pieces;
mod reading;
mod seq;
mod token;
mod transmission;
mod writing;

pub use code::Code;
pub use datagram::Datagram;
pub use error::{DecodeError, Full, OutOfMemory};
pub use integers::{uint, uint_bytes, without_zeros};
pub use kind::Kind;
pub use message::{Content, Head, Message, MessageRef};
pub use option_list::OptionList;
pub use options::{Opt, OptRef, OptRefs, Options};
pub use pieces::{PieceRefs, Pieces};
pub use reading::{decode, head_of};
pub use seq::Seq;
pub use token::Token;
pub use transmission::{
    ACK_TIMEOUT, EXCHANGE_LIFETIME, LAST_MOMENT, MAX_RETRANSMIT, MAX_TRANSMIT_WAIT, MOST_JITTER,
    Moment, NON_LIFETIME,
};
pub use writing::{
    encode_into, put_head, put_message, put_option, put_options, put_options_from, put_payload,
    set_id,
};
