//! Instructions to bytes and back.
#![tactic(auto)]

mod code;
mod decoding;
mod encoding;
mod text;

pub use code::Code;
pub use decoding::decode;
pub use encoding::encode;
pub use text::Text;
