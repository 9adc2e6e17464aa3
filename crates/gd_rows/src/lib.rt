//! The definitions, computed on rows worked by hand. No other crate stands on this one.
#![tactic(auto)]

pub mod back_rows;
pub mod check_rows;
pub mod churn_rows;
pub mod connector_rows;
pub mod edit_rows;
pub mod exit_rows;
pub mod frame_rows;
pub mod gesture_rows;
pub mod input_rows;
pub mod line_rows;
pub mod node_rows;
pub mod op_rows;
pub mod pair_rows;
pub mod rehearsal_rows;
pub mod rejoin_rows;
pub mod rows;
pub mod snapshot_rows;
pub mod view_rows;
pub mod world_rows;
