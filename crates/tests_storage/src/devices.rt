//! Page devices (`oai_device`) and the pool of pages (`oai_pool`).

mod files;
mod files_in_memory;
mod filled;
mod in_memory;
mod numbered_pages;
mod pool_failures;
mod pools;
mod ranges;
mod saturated;
mod short_files;
mod steps;
