// Records of 66 bytes: how they are written; and by name how they are read, and copying, of crates of their own.
// No public function has a `requires`.
#![tactic(auto)]

mod joined;
mod write;

pub use copies::{copy, copy_by_blocks, join, join_by_blocks};
pub use joined::{put_head, put_joined};
pub use record_reads::{
    edge_kind, field_reading, holds_edge, holds_element, holds_key, holds_pivot, is_max, key_bytes,
    length_field, read_record, record_after, record_at,
};
pub use write::{put_record, record_of, store};
