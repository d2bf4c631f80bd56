ghost use Rattle.std.specs.Prelude.{◌≡◌, ◌++◌, [], true, codes, IfOk, IfSome};
ghost use Rattle.std.specs.Str.{IsUtf8};
ghost use Rattle.oai_names.specs.Characters.{is_xml_text};
ghost use Rattle.oai_item.specs.ShortTexts.{is_short_text};
ghost use Rattle.oai_time.specs.Bound.{IsWritableBound};
ghost use Rattle.oai_settings.specs.Config as rule;
ghost use Rattle.oai_settings.specs.Settings as spec;
ghost use Rattle.oai_settings.specs.SettingsWork.{AreDeclared, AreLimits, IsLimit};
ghost use Rattle.oai_settings.specs.SettingsWork.{IsAssembled, IsDeclared, IsFormatOf, IsPrefixOf};

use crate::settings::{
    ConfigFault, FormatSettings, Settings, has_shape, have_forms, is_repository_name,
};
use oai_item::{Format, FormatFault, Formats};
use oai_names::{NameFault, Prefix, Sequence, Text};
use oai_time::{Bound, Granularity, LAST_TICK, read_bound};
use std::alloc::{AllocError, Global};
use std::mem;

/// The first second of the year 0001.
const FIRST_DATE: i64 = -62_135_596_800;

/// The maximum number of records in a part of a list.
const MAX_CHUNK: u64 = 1_000;

/// The maximum lifetime of a list in seconds: a year of 365 days.
const MAX_LIFETIME: u64 = 31_536_000;

/// The maximum number of open lists.
const MAX_LISTS: u64 = 10_000;

/// The maximum number of items, including deleted ones.
const MAX_ITEMS: u64 = 1_000_000;

/// The limits of a repository.
#[derive(Clone, Copy, Debug)]
pub struct Limits {
    /// Records in a part of a list.
    pub chunk: u64,
    /// Seconds that a list stays open after each of its parts.
    pub lifetime: u64,
    /// Lists that are open at once.
    pub lists: u64,
    /// Items, including deleted ones.
    pub items: u64,
}

/// The parts of a configuration that are not copied from its settings.
#[derive(Drop)]
pub(super) struct Made {
    pub(super) base: Text,
    pub(super) earliest: i64,
    pub(super) limits: Limits,
    pub(super) formats: Formats,
}

/// What a configuration of the settings has beside what they say as it stands; their base and their
/// formats are taken out for it. The errors are those of `RepoConfig::new`.
#[tactic(auto, unfolding(crate::specs::Settings::config_fault))]
pub(super) fn made_of(alloc: Global, settings: &mut Settings) -> Result<Made, ConfigFault>
    ensures made { IsAssembled settings.old result }
    ensures rest { IfOk result (λ _. settings.new ≡ record settings.old { base = []; formats = [] }) }
{
    if !has_shape(settings) {
        return Err(ConfigFault::BadShape);
    }
    if !is_repository_name(settings.name.as_str()) {
        return Err(ConfigFault::BadName);
    }
    if !have_forms(settings.forms, settings.formats.as_slice()) {
        return Err(ConfigFault::BadFormat);
    }
    let formats = mem::replace(&mut settings.formats, Sequence::new(Vec::new(alloc)));
    let formats = declared_formats(alloc, formats)?;
    let Some(earliest) = read_earliest(settings.granularity, settings.earliest.as_str()) else {
        return Err(ConfigFault::BadDate);
    };
    let Some(limits) = limits_of(
        settings.chunk,
        settings.lifetime,
        settings.lists,
        settings.items,
    ) else {
        return Err(ConfigFault::BadNumber);
    };
    let base = mem::replace(&mut settings.base, Text::from_string(String::new(alloc)));
    let base = base_url(base, settings.name.as_str())?;
    Ok(Made {
        base,
        earliest,
        limits,
        formats,
    })
}

/// The formats of a repository with these declared after oai_dc.
fn declared_formats(
    alloc: Global,
    settings: Sequence<FormatSettings>,
) -> Result<Formats, ConfigFault>
    ensures { AreDeclared settings result }
{
    let mut formats = Formats::dc(alloc)?;
    for one in settings.into_vec() {
        let format = match format_of(alloc, one) {
            Ok(format) => format,
            Err(fault) => return Err(fault),
        };
        match declare(format, &mut formats) {
            Ok(()) => {}
            Err(fault) => return Err(fault),
        }
    }
    Ok(formats)
}

/// Declares one more format.
fn declare(format: Format, formats: &mut Formats) -> Result<(), ConfigFault>
    ensures { IsDeclared formats.old format result formats.new }
{
    match formats.declare(format) {
        Ok(()) => Ok(()),
        Err(FormatFault::NoMemory) => Err(ConfigFault::NoMemory),
        Err(FormatFault::Duplicate) => Err(ConfigFault::BadFormat),
        Err(FormatFault::BadName) => Err(ConfigFault::BadFormat),
        Err(FormatFault::BadUri) => Err(ConfigFault::BadFormat),
        Err(FormatFault::FieldTwice) => Err(ConfigFault::BadFormat),
        Err(FormatFault::TooMany) => Err(ConfigFault::BadFormat),
    }
}

/// The format that the settings describe, if they have a valid prefix.
fn format_of(alloc: Global, settings: FormatSettings) -> Result<Format, ConfigFault>
    ensures { IsFormatOf settings result }
{
    Ok(Format {
        prefix: read_prefix(alloc, settings.prefix.as_str())?,
        schema: settings.schema,
        namespace: settings.namespace,
        root: settings.root,
        fields: settings.fields,
    })
}

fn read_prefix(alloc: Global, text: &str) -> Result<Prefix, ConfigFault>
    ensures { IsPrefixOf text.now result }
{
    match Prefix::read(alloc, text) {
        Ok(prefix) => Ok(prefix),
        Err(NameFault::NoMemory) => Err(ConfigFault::NoMemory),
        Err(NameFault::Syntax) => Err(ConfigFault::BadFormat),
        Err(NameFault::TooLong) => Err(ConfigFault::BadFormat),
    }
}

/// The seconds of the text, if it is a bound with exactly this granularity and in the years 0001 to 9998.
#[tactic(auto, unfolding(crate::specs::Settings::earliest_of))]
fn read_earliest(granularity: Granularity, text: &str) -> Option<i64>
    ensures value { result ≡ spec.earliest_of granularity text.now }
    ensures date { IfSome result (λ seconds. rule.is_date granularity seconds ≡ true) }
{
    match read_bound(text) {
        Ok(bound) => seconds_of(granularity, bound),
        Err(_) => None,
    }
}

/// The seconds of the bound, if it has exactly this granularity and lies in the years 0001 to 9998.
#[tactic(auto, unfolding(crate::specs::Config::is_date))]
fn seconds_of(granularity: Granularity, bound: Bound) -> Option<i64>
    requires { IsWritableBound bound }
    ensures value { result ≡ spec.seconds_of granularity bound }
    ensures date { IfSome result (λ seconds. rule.is_date granularity seconds ≡ true) }
{
    match (granularity, bound) {
        (Granularity::Day, Bound::Day(midnight)) if is_in_years(midnight) => Some(midnight),
        (Granularity::Second, Bound::Second(second)) if is_in_years(second) => Some(second),
        _ => None,
    }
}

fn is_in_years(seconds: i64) -> bool
    ensures { result ≡ rule.is_in_years seconds }
{
    FIRST_DATE <= seconds && seconds <= LAST_TICK
}

/// The limits, if each is a number in its range.
#[tactic(auto, unfolding(crate::specs::Settings::are_numbers, crate::specs::Config::are_limits))]
fn limits_of(
    chunk: Option<u64>,
    lifetime: Option<u64>,
    lists: Option<u64>,
    items: Option<u64>,
) -> Option<Limits>
    ensures { AreLimits chunk lifetime lists items result }
{
    Some(Limits {
        chunk: limit(MAX_CHUNK, chunk)?,
        lifetime: limit(MAX_LIFETIME, lifetime)?,
        lists: limit(MAX_LISTS, lists)?,
        items: limit(MAX_ITEMS, items)?,
    })
}

/// The number, if there is one from 1 to the maximum.
fn limit(most: u64, number: Option<u64>) -> Option<u64>
    ensures { IsLimit most number result }
{
    let n = number?;
    (1 <= n && n <= most).then_some(n)
}

/// The base URL of the repository: the base, `/oai/` and the name.
#[tactic(auto, using(crate::proofs::ConfigLemmas::base_url_is_xml_text))]
fn base_url(base: Text, name: &str) -> Result<Text, AllocError>
    ensures url { IfOk result (λ url. url ≡ base ++ codes "/oai/" ++ name.now) }
    ensures based { IsUtf8 base → is_short_text base ≡ true
        → rule.is_repository_name name.now ≡ true
        → is_xml_text (base ++ codes "/oai/" ++ name.now) ≡ true }
{
    let mut url = base.into_string();
    url.push_str("/oai/")?;
    url.push_str(name)?;
    Ok(Text::from_string(url))
}
