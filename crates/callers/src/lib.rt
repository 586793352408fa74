//! A caller of each library, as its CALLING.md shows it: `docs/check-calling` compares the two.
#![tactic(auto)]

pub mod cell_lanes_caller;
pub mod event_check_caller;
pub mod gate_word_caller;
pub mod grid_text_caller;
pub mod grid_tiles_caller;
pub mod halo_message_caller;
pub mod halo_plan_caller;
pub mod init_match_caller;
pub mod pair_core_caller;
pub mod pair_rule_caller;
pub mod part_api_caller;
pub mod part_geometry_caller;
pub mod part_io_caller;
pub mod part_recv_caller;
pub mod part_send_caller;
pub mod part_tables_caller;
pub mod plain_pair_caller;
pub mod rank_pool_caller;
pub mod rank_task_caller;
pub mod residual_ring_caller;
pub mod script_pair_caller;
pub mod script_run_caller;
pub mod script_text_caller;
pub mod slot_rows_caller;
pub mod stencil_def_caller;
pub mod stencil_top_caller;
pub mod stencil_words_caller;
pub mod text_words_caller;
