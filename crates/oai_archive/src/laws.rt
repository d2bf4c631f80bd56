//! What holds of every two configurations that count as the same: a theorem, by an empty function.
ghost use Rattle.oai_archive.specs.Firsts.{IsOf, IsSameConfig};
ghost use Rattle.oai_item.specs.declared.forms.Forms.{Forms};
ghost use Rattle.oai_config.specs.Configs.{HostConfig};
ghost use Rattle.oai_config.specs.Reading.{IsRead};
ghost use Rattle.std.specs.Prelude.{◌≡◌, ℕ, List, Ok};

/// Two texts that count as the same configuration are read to the same repositories, if both are read with the same forms
/// of records: only the size of
/// the cache may differ (`texts`). So are two under which one journal goes on, since both are that of its first record
/// (`journal`): all lives of a journal have one configuration. A theorem, proved by an empty function.
pub fn same_config_law()
    ensures texts { (forms : Forms) (one other : List ℕ) (a b : HostConfig) → IsSameConfig one other
        → IsRead forms one (Ok a) → IsRead forms other (Ok b)
        → a.repositories ≡ b.repositories }
    ensures journal { (forms found : Forms) (name body one other : List ℕ) (a b : HostConfig)
        → IsOf forms name body one → IsOf found name body other
        → IsRead forms one (Ok a) → IsRead found other (Ok b) → a.repositories ≡ b.repositories }
{}
