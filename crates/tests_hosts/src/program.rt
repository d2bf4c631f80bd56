//! The program's work with its inputs and outputs (`oai_cli`, `oai_startup`).

mod asking;
mod check_config;
mod configurations;
mod failing_streams;
mod inputs;
mod pages;
mod serve_stream;
mod stops;
mod trace_lines;
