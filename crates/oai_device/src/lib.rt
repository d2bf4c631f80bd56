//! Page devices: pages of 16,384 bytes under numbers, in memory or in a file; bytes that are shared with a page in memory;
//! and two faulty devices for tests, one that fails and one that returns a wrong byte.
#![tactic(auto)]

mod devices;
mod faulty;
mod file;
mod flipping;
mod held_bytes;
mod memory;
mod page_file;
mod written;

pub use devices::{DeviceFault, MAX_FAILURES, PAGE_BYTES, Page, PageDevice};
pub use faulty::FaultyDevice;
pub use file::FileDevice;
pub use flipping::FlippingDevice;
pub use held_bytes::HeldBytes;
pub use memory::MemoryDevice;
pub use page_file::PageFile;
