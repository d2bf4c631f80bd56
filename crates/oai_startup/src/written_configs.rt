//! A configuration together with its text.
ghost use Rattle.std.specs.Prelude.{◌≡◌, Err, MatchResult, Ok};
ghost use Rattle.oai_config.specs.Reading.{IsRead};
ghost use Rattle.oai_item.specs.declared.forms.Forms.TheVariants.{Elements};
ghost use Rattle.oai_startup.specs.Configurations.{IsConfigIn};
ghost use Rattle.oai_startup.specs.Rules.{HaveRules};

use crate::configurations::config_in;
use crate::stop::Stop;
use oai_host::Config;
use oai_item::Forms;
use std::alloc::Global;
use std::marker::Model;

/// A configuration, of repositories whose records may be elements, and the text that it was read from: a journal has the
/// text, and a host is made of the configuration. For a second host, or one whose records are lists of fields alone, the
/// text is parsed again.
#[derive(Drop)]
pub struct WrittenConfig {
    text: Vec<u8>,
    config: Config,
}

impl Model for WrittenConfig {
    ghost use Rattle.std.specs.Prelude.{Ok};
    ghost use Rattle.oai_config.specs.Reading.{IsRead};
    ghost use Rattle.oai_item.specs.declared.forms.Forms.TheVariants.{Elements};
    ghost use Rattle.oai_startup.specs.Rules.{HaveRules};
    ghost use Rattle.oai_startup.specs.Written.{WrittenFields};

    ghost Value = { WrittenFields };

    ghost view = { λ w. record { text = w.text.items; config = w.config } };

    ghost invariant = { λ w. IsRead Elements w.text.items (Ok w.config) × HaveRules w.config };
}

impl WrittenConfig {
    /// The configuration in the text. The errors are `BadConfig`, with the fault that `Config::read` returns, and
    /// `NoMemory`; the text is returned with them.
    pub fn read(alloc: Global, text: Vec<u8>) -> Result<WrittenConfig, (Stop, Vec<u8>)>
        ensures { MatchResult result (λ written. written.text ≡ text.items)
            (λ unread. IsConfigIn Elements text.items (Err unread.0) × (unread.1.items ≡ text.items)) }
    {
        match config_in(alloc, Forms::Elements, &text) {
            Ok(config) => Ok(WrittenConfig { text, config }),
            Err(stop) => Err((stop, text)),
        }
    }

    /// The configuration.
    pub fn config(&self) -> &Config
        ensures { result.now ≡ self.now.config }
    {
        &self.config
    }

    /// The text and the configuration.
    pub fn into_parts(self) -> (Vec<u8>, Config)
        ensures text { result.0.items ≡ self.text }
        ensures config { result.1 ≡ self.config }
        ensures read { IsRead Elements result.0.items (Ok result.1) }
        ensures rules { HaveRules result.1 }
    {
        let WrittenConfig { text, config } = self;
        (text, config)
    }
}
