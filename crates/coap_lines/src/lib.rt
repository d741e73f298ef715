//! Lines: the events of a proxy and what it sends, as text.
//!
//! # First use
//!
//! ```rust
//! let mut datagram = Datagram::new(alloc, LONGEST / 2)?;
//! let line = b"500 250 192.0.2.7:40001 50010007B174";
//! let turn = read_turn(line, 0, &mut datagram).ok_or("not a turn")?;
//! assert_eq!(rt; (turn.now, turn.draw), (500, 250));
//! assert_eq!(rt; datagram.bytes(), b"\x50\x01\x00\x07\xB1t".as_slice());
//! let mut out = line_buffer(alloc, 1500)?;
//! put_line(&mut out, 500, to, b"\x50\x01\x00\x07\xB1t");
//! assert_eq!(rt;
//!     out.as_slice(),
//!     b"500 192.0.2.7:40001 50010007B174\n".as_slice()
//! );
//! ```
#![tactic(auto)]

pub mod examples;
mod failing;
pub mod laws;
mod reading;
mod room;
mod writing;

pub use reading::input::{Input, LONGEST, Next, is_skipped};
pub use reading::turn::{Turn, read_turn};
pub use writing::line::{line_buffer, put_line};
pub use writing::output::Output;
pub use writing::turn::{put_arrival, put_tick};
