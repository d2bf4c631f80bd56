//! Where and why a configuration, a deposit line or an XML element is wrong, in words. It is a report for people, and only
//! tested: that a text has a fault, and which, is what `oai_config`, `oai_deposit`, `oai_repo` and `oai_xml` prove.
#![tactic(auto)]

mod abouts;
mod causes;
mod commands;
mod dates;
mod elements;
mod formats;
mod line_files;
mod places;
mod records;
mod reports;
mod repositories;
mod shapes;
mod values;
mod wholes;

pub use elements::FoundElement;
pub use line_files::LineFile;
pub use wholes::report_of;
