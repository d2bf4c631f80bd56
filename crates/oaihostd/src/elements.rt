//! The canonical text of an XML element in a file.
use crate::configurations::Failure;
use oai_reports::FoundElement;
use oai_startup::{Stop, read_file};

/// The file that is the standard input.
const STANDARD_INPUT: &str = "/dev/stdin";

/// Writes the canonical text of the XML element in the file, or in the standard input if its name is `-`, as a line; or
/// on standard error where and why it is none.
pub(crate) fn run_xml(rt: &HostRuntime, path: &str) -> Result<(), Failure> {
    let bytes = match read_file(rt, if path == "-" { STANDARD_INPUT } else { path }) {
        Ok(bytes) => bytes,
        Err(Stop::CannotRead) => return Err(Failure::NoElement),
        Err(stop) => return Err(Failure::from(stop)),
    };
    match FoundElement::read(rt.alloc(), &bytes) {
        Ok(FoundElement::Element(element)) => {
            if println!(rt; "{}", element.as_str()).is_err() {
                return Err(Failure::from(Stop::OutputFault));
            }
            Ok(())
        }
        Ok(FoundElement::Report(report)) => {
            let _ = eprintln!(rt; "{report}");
            Err(Failure::Refused)
        }
        Err(_) => Err(Failure::from(Stop::NoMemory)),
    }
}
