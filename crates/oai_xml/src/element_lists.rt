ghost use Rattle.std.specs.Prelude.{◌≡◌, ◌++◌, ◌∷◌, [], true, find, option_copied, IfOk};
ghost use Rattle.std.specs.List.{list_all};
ghost use Rattle.std.specs.Str.{bytes_eq};
ghost use Rattle.oai_xml.specs.Documents.{is_canonical};
ghost use Rattle.oai_xml.specs.Named.{elements_named};
ghost use Rattle.oai_xml.specs.Reads.{AreElementsRead};

use crate::element_texts::ElementText;
use crate::faults::XmlFault;
use oai_names::{Sequence, Text};
use std::alloc::{AllocError, Global};
use std::marker::Model;

/// XML elements, in order, each by its canonical text. Contracts see these texts.
#[derive(Debug, Drop)]
pub struct ElementTexts {
    texts: Sequence<Text>,
}

impl Model for ElementTexts {
    ghost use Rattle.std.specs.Prelude.{◌≡◌, ℕ, List, true};
    ghost use Rattle.std.specs.List.{list_all};
    ghost use Rattle.oai_xml.specs.Documents.{is_canonical};

    ghost Value = { List (List ℕ) };

    ghost view = { λ e. e.texts };

    ghost invariant = { λ e. list_all is_canonical e.texts ≡ true };
}

impl ElementTexts {
    /// Reads the element that each text is. The error is the place of the first fault in the first text that is none, or
    /// out of memory.
    pub fn read(alloc: Global, texts: &[Text]) -> Result<ElementTexts, XmlFault>
        ensures { AreElementsRead texts.now result }
    {
        let mut elements = Vec::new(alloc);
        for text in texts {
            let element = ElementText::read(alloc, text.as_str())?;
            elements.push(element.into_text())?;
        }
        Ok(ElementTexts {
            texts: Sequence::new(elements),
        })
    }

    /// The canonical texts, in order.
    pub fn as_slice(&self) -> &[Text]
        ensures texts { result.now ≡ self.now }
        ensures canonical { list_all is_canonical self.now ≡ true }
    {
        self.texts.as_slice()
    }
}

/// Lists of XML elements, each under a name. Contracts see the names and the canonical texts.
#[derive(Debug, Drop)]
pub struct NamedElements {
    lists: Vec<(Text, ElementTexts)>,
}

impl Model for NamedElements {
    ghost use Rattle.std.specs.Prelude.{◌≡◌, ℕ, List, true};
    ghost use Rattle.std.specs.List.{list_all};
    ghost use Rattle.oai_xml.specs.Named.{are_canonical};

    ghost Value = { List (List ℕ × List (List ℕ)) };

    ghost view = { λ n. n.lists.items };

    ghost invariant = { λ n. list_all are_canonical n.lists.items ≡ true };
}

impl NamedElements {
    /// No list. Allocates nothing.
    pub fn new(alloc: Global) -> NamedElements
        ensures { result ≡ [] }
    {
        NamedElements {
            lists: Vec::new(alloc),
        }
    }

    /// Adds a list under a name. The error is out of memory.
    #[tactic(auto, using(crate::proofs::ListedElements::added_canonical))]
    pub fn push(&mut self, name: Text, elements: ElementTexts) -> Result<(), AllocError>
        ensures { IfOk result (λ _. self.new ≡ self.old ++ (name, elements) ∷ []) }
    {
        self.lists.push((name, elements))?;
        Ok(())
    }

    /// The canonical texts of the first list under that name, none if there is no such list. It looks at one name after
    /// the other.
    #[tactic(auto, using(crate::proofs::ListedElements::named_canonical), unfolding(crate::specs::Named::elements_named))]
    pub fn find(&self, name: &str) -> &[Text]
        ensures texts { result.now ≡ elements_named self.now name.now }
        ensures canonical { list_all is_canonical (elements_named self.now name.now) ≡ true }
    {
        match list_named(&self.lists, name) {
            Some(list) => list.1.as_slice(),
            None => &[],
        }
    }
}

/// The first list under that name.
fn list_named<'a>(lists: &'a [(Text, ElementTexts)], name: &str) -> Option<&'a (Text, ElementTexts)>
    ensures { option_copied result ≡ find (λ list. bytes_eq list.0 name.now) lists.now }
{
    lists.iter().find(|list| list.0.as_str() == name)
}
