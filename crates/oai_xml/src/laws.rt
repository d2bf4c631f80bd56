ghost use Rattle.std.specs.Prelude.{◌≡◌, ◌++◌, ℕ, List, true, Ok, Err, Some};
ghost use Rattle.oai_xml.specs.Documents.{canonical, is_canonical, tree_in};
ghost use Rattle.oai_xml.specs.LegalTexts.{is_legal_text, is_legal_tree};
ghost use Rattle.oai_xml.specs.Trees.{Tree, spelled};
ghost use Rattle.oai_xml.specs.Whole.{IsElement, SpellsTree, is_whole};

/// The bytes determine the tree. A tree stands in a longer text in one way: its spelling is separable from whatever
/// follows; so bytes spell one tree at most, and of two elements with something behind them that are the same bytes, both are
/// one, and so is what stands behind them. A theorem, proved by an empty function.
pub fn spelling_law()
    ensures trees { (t u : Tree) (x y : List ℕ) → is_whole t ≡ true → is_whole u ≡ true
        → spelled t ++ x ≡ spelled u ++ y → (t ≡ u) × (x ≡ y) }
    ensures tree { (bytes : List ℕ) (t u : Tree) → SpellsTree bytes t → SpellsTree bytes u → t ≡ u }
    ensures elements { (e f x y : List ℕ) → IsElement e → IsElement f → e ++ x ≡ f ++ y → (e ≡ f) × (x ≡ y) }
{}

/// What reading gives. The canonical text of a text is an element: the spelling of the text's tree, and that tree is its own. A
/// text that is an element is its own canonical text, so a text with a fault is none, and `is_canonical` tests it. A theorem,
/// proved by an empty function.
pub fn canonical_law()
    ensures element { (text e : List ℕ) → canonical text ≡ Ok e → IsElement e }
    ensures tree { (text e : List ℕ) → canonical text ≡ Ok e
        → (t : Tree) × (tree_in text ≡ Some t) × SpellsTree e t × (tree_in e ≡ Some t) }
    ensures again { (e : List ℕ) → IsElement e → canonical e ≡ Ok e }
    ensures tested { (e : List ℕ) → is_canonical e ≡ true → IsElement e }
    ensures found { (e : List ℕ) → IsElement e → is_canonical e ≡ true }
    ensures faulty { (text : List ℕ) (offset : ℕ) → canonical text ≡ Err offset → ¬ (IsElement text) }
{}

/// A tree whose names, values and texts are UTF-8 of characters that XML allows is spelled in such a text. A theorem, proved by
/// an empty function.
pub fn legal_law()
    ensures { (t : Tree) → is_legal_tree t ≡ true → is_legal_text (spelled t) ≡ true }
{}
