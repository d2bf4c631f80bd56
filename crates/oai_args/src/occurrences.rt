ghost use Rattle.std.specs.Prelude.{◌≡◌, ◌∷◌, [], IfOk};
ghost use Rattle.oai_args.specs.Arguments as spec;
ghost use Rattle.oai_args.specs.Steps.{given_with};

use oai_names::Text;
use std::alloc::{AllocError, Global};
use std::mem;

/// How often a key is given, with the value of one that is given once.
#[derive(Drop)]
pub(crate) enum Occurrence {
    Never,
    Once(Text),
    Often,
}

impl Occurrence {
    /// Adds one more value of the key.
    #[tactic(auto, unfolding(crate::specs::Steps::given_with))]
    pub(crate) fn add(&mut self, alloc: Global, value: &str) -> Result<(), AllocError>
        ensures { IfOk result (λ _. self.new ≡ given_with self.old (value.now ∷ [])) }
    {
        *self = match self {
            Occurrence::Never => Occurrence::Once(Text::new(alloc, value)?),
            Occurrence::Once(_) => Occurrence::Often,
            Occurrence::Often => Occurrence::Often,
        };
        Ok(())
    }

    /// Takes out the value of a key that is given once.
    pub(crate) fn take(&mut self) -> Option<Text>
        ensures { result ≡ spec.once self.old }
    {
        match mem::replace(self, Occurrence::Never) {
            Occurrence::Once(value) => Some(value),
            Occurrence::Never => None,
            Occurrence::Often => None,
        }
    }

    /// Whether the key is not given.
    pub(crate) fn is_never(&self) -> bool
        ensures { result ≡ spec.is_never self.now }
    {
        matches!(self, Occurrence::Never)
    }

    /// Whether the key is given once.
    pub(crate) fn is_once(&self) -> bool
        ensures { result ≡ spec.is_once self.now }
    {
        matches!(self, Occurrence::Once(_))
    }

    /// Whether the key is given more than once.
    pub(crate) fn is_often(&self) -> bool
        ensures { result ≡ spec.is_often self.now }
    {
        matches!(self, Occurrence::Often)
    }
}
