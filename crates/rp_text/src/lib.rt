//! The lines of packets: what a stream is listed as, and what a text of packets is read from.
//!
//! A line is the name of the packet's command and the words of its fields, separated by one blank each:
//!
//! | Packet | Words behind the name |
//! |---|---|
//! | `nop` | id, flags, dev |
//! | `hello` | id, flags, dev, major, minor, the capabilities |
//! | `cfg` | id, flags, dev, opt, set |
//! | `read`, `write` | id, flags, dev, time, attributes, address, len, width, stream width, master, data, enables |
//! | `interrupt` | id, flags, dev, time, vector, line, val |
//! | `sync` | id, flags, dev, time |
//!
//! Numbers are decimal without leading zeros. Attributes and address are `0x` and lower-case hexadecimal digits without leading
//! zeros. Data and enables are two lower-case hexadecimal digits a byte, or `-` where there are none.
#![tactic(auto)]

mod fault;
mod hexadecimal;
mod laws;
mod parser;
mod printer;
mod words_in;
mod words_out;

pub use fault::LineFault;
pub use laws::one_line;
pub use parser::read_line;
pub use printer::packet_line;
