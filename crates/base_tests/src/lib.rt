//! Tests of numbers and tables, machines, texts and streams, over what these crates make public. They stand apart, as a crate that has tests is proved a
//! second time with them.
#![tactic(auto)]

#[cfg(test)]
mod app_text_tests;
#[cfg(test)]
mod flight_index_tests;
#[cfg(test)]
mod kv_machine_tests;
#[cfg(test)]
mod lanes_tests;
#[cfg(test)]
mod line_reader_tests;
#[cfg(test)]
mod lock_table_tests;
#[cfg(test)]
mod machines;
#[cfg(test)]
mod number_set_tests;
#[cfg(test)]
mod outside_mem_tests;
#[cfg(test)]
mod outside_tests;
#[cfg(test)]
mod real_stream_tests;
#[cfg(test)]
mod schedule_text_tests;
#[cfg(test)]
mod vst_base_entry_tests;
#[cfg(test)]
mod vst_base_tests;
