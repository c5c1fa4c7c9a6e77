//! What holds of a script that orders nothing: no power is cut and no call of the disk fails, so its run is the quiet one.

mod counts;
mod quiet;
mod scripts;
mod told;

pub use counts::without_orders_no_stop_is_counted;
pub use quiet::without_counts_the_report_is_the_quiet_one;
pub use scripts::a_script_without_orders_notes_none;
pub use told::a_report_that_tells_no_stop_counts_none;
