//! The rules that every accepted configuration satisfies.
ghost use Rattle.std.specs.List.{All};
ghost use Rattle.oai_startup.specs.Rules.{HasRules, HaveRules};

use oai_config::{Config, NamedConfig};

/// The repositories of a configuration satisfy the rules that the theorems require. It iterates over them, since the
/// invariant of the type of each one's configuration is known where that is read, and returns nothing.
pub fn rules_law(config: &Config)
    ensures { HaveRules config.now }
{
    have_rules(config.repositories());
}

fn have_rules(entries: &[NamedConfig])
    ensures { All HasRules entries.now }
{
    for entry in entries {
        has_rules(entry);
    }
}

fn has_rules(entry: &NamedConfig)
    ensures { HasRules entry.now }
{
    let _base = entry.config.base();
    let _formats = entry.config.formats().len();
}
