//! Tests of the headend, and of what the commands stand on: sources, sinks and shelves, files as flashes, words, answers and lines.
#![tactic(auto)]

#[cfg(test)]
mod check;
#[cfg(test)]
mod due_wheel_tests;
#[cfg(test)]
mod flash_file_tests;
#[cfg(test)]
mod head_carousel_tests;
#[cfg(test)]
mod head_mux_tests;
#[cfg(test)]
mod head_plan_tests;
#[cfg(test)]
mod paths;
#[cfg(test)]
mod ssu_answer_tests;
#[cfg(test)]
mod ssu_io_tests;
#[cfg(test)]
mod ssu_line_tests;
#[cfg(test)]
mod ssu_status_tests;
#[cfg(test)]
mod toml_fields_tests;
#[cfg(test)]
mod tool_box_tests;
#[cfg(test)]
mod ts_input_tests;
