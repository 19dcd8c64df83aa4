// The text of a script of calls, taken apart (bytes and tokens, sizes, numbers, lists and kinds, records in hex, the call that a line names) and written (answers, put into lent bytes).
#![tactic(auto)]

pub mod counts;
pub mod hex;
pub mod marks;
pub mod names;
pub mod numbers;
pub mod text;
pub mod write;

pub use counts::times;
pub use hex::{bytes_at, marked_bytes, put_bytes};
pub use marks::Marks;
pub use names::{Call, Name, call_at, name_of};
pub use numbers::{front, kind_at, list_at, marked, number_at, size_at};
pub use text::{Read, Token, code, is_blank, line_end, no_token, part, same_bytes, token_at};
pub use write::{
    first, gather, put, put_bit, put_decimal, put_number, put_numbers, put_stage, put_verdict,
    put_way,
};
