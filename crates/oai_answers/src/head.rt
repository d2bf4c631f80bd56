ghost use Rattle.std.specs.Prelude.{OnOk};
ghost use Rattle.oai_answers.specs.Appends.{Appends};
ghost use Rattle.oai_answers.specs.Documents.{head};

use std::alloc::AllocError;

/// The XML declaration and the start tag of the root.
const HEAD: &str =
    "<?xml version=\"1.0\" encoding=\"UTF-8\"?>\n<OAI-PMH xmlns=\"http://www.openarchives.org/OAI/2.0/\" xmlns:xsi=\"http://www.w3.org/2001/XMLSchema-instance\" xsi:schemaLocation=\"http://www.openarchives.org/OAI/2.0/ http://www.openarchives.org/OAI/2.0/OAI-PMH.xsd\">";

/// Appends the XML declaration and the start tag of the root.
#[tactic(auto, unfolding(crate::specs::Documents::head))]
pub(crate) fn write_head(out: &mut Vec<u8>) -> Result<(), AllocError>
    ensures { OnOk result (Appends out.old.items out.new.items head) }
{
    out.extend_from_slice(HEAD.as_bytes())
}
