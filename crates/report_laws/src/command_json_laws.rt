//! The reports of `control`, `twin`, `import`, `export`, `safe` and `make` by their objects: each line has its text back.

mod reports;

pub use reports::{
    a_report_of_control_is_read, a_report_of_export_is_read, a_report_of_import_is_read,
    a_report_of_make_is_read, a_report_of_safe_is_read, a_report_of_twin_is_read,
    each_line_of_run_is_one_line,
};
