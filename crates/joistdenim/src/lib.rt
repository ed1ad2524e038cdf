// The boundary for C and Rust. Each function answers what the call below it does: 0 or the refusal's number,
// and the value through its last parameter, which a refusal leaves as it was. No public function has a `requires`.
#![tactic(auto)]

mod of_buckets;
mod of_cuts;
mod of_index;
mod of_joining;
mod of_keys;
mod of_list;
mod of_pairs;
mod of_parent_child;
mod of_renaming;
mod of_tables;
mod of_translation;

pub use of_buckets::{jd_translate_bucket, jd_translate_bucket_will_fit};
pub use of_cuts::{jd_insert_pivot, jd_split_left, jd_split_right};
pub use of_index::{
    jd_build_index, jd_check_index, jd_cut_index_left, jd_cut_index_right, jd_slot_entries,
    jd_translate_index,
};
pub use of_joining::jd_join;
pub use of_keys::{
    jd_change_prefix, jd_compare, jd_entry_key, jd_pivot_key, jd_pivot_lcp,
    jd_shortest_uncommon_prefix,
};
pub use of_list::jd_list_table;
pub use of_pairs::{jd_apply_pair, jd_compose_pairs, jd_reverse_pair};
pub use of_parent_child::jd_parent_keys_in_child_range;
pub use of_renaming::{jd_translate_edges, jd_translate_pivot_pair, jd_translate_pivots};
pub use of_tables::{
    jd_bounded_key, jd_contains_all_keys, jd_contains_range, jd_cutoff_for_left,
    jd_cutoff_for_right, jd_get_key, jd_init_pivot_table, jd_pivot_insertable, jd_route,
    jd_valid_left_cut_off_key, jd_wf_edges, jd_wf_pivots,
};
pub use of_translation::{jd_translate, jd_translate_key};
