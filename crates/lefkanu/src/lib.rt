// The octet layer for programs in Rust and C, as a static library: numbers, slices of numbers and lent numbers only. Each
// function answers 0 where there is a result, and then it stands in the lent memory; else the number of the question that
// fails, FE for "none" and "start reached", or FF where a number names no rule, type or function, or numbers no state, and
// writes nothing. The version of the layout is answered as it is. `numbers` has the layout of results, `answers` how
// answers are told. Functions that are alike stay apart, and so do parameters that come together: C names and passes each.
#![tactic(auto)]

mod bus_runs;
mod bvlc_messages;
mod checks;
mod ethernet_frames;
mod frame_analysis;
mod layout;
mod log_records;
mod mstp_frames;
mod padding_states;
mod validators;

pub use bus_runs::{lefkanu_count_frames, lefkanu_find_frame, lefkanu_read_frames};
pub use bvlc_messages::{lefkanu_bvlc_decode, lefkanu_bvlc_encode, lefkanu_process_bvlc_message};
pub use checks::{
    lefkanu_calculate_header_crc, lefkanu_crc16_mstp, lefkanu_data_table, lefkanu_header_table,
};
pub use ethernet_frames::{
    lefkanu_ethernet_decode, lefkanu_ethernet_decode_form, lefkanu_ethernet_encode,
    lefkanu_ethernet_encode_form, lefkanu_ethernet_validate,
};
pub use frame_analysis::{
    lefkanu_analyze_frame, lefkanu_calculate_frame_statistics, lefkanu_detect_patterns,
};
pub use layout::lefkanu_layout_version;
pub use log_records::{lefkanu_append, lefkanu_read_record};
pub use mstp_frames::{lefkanu_data_link_error, lefkanu_mstp_decode, lefkanu_mstp_encode};
pub use padding_states::{lefkanu_padding_length, lefkanu_padding_step};
pub use validators::{
    lefkanu_validate_bacnet_ip_frame, lefkanu_validate_ethernet_frame, lefkanu_validate_frame,
    lefkanu_validate_mstp_frame,
};
