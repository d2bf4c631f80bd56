//! The documents that the tests want, whole. `scripts/run well-formed` takes them from here: each
//! begins with its XML declaration and ends with the end tag of its root and a line end. A `→` stands
//! for a tab, which no source file may hold.

/// Identify of a repository of seconds.
pub(super) fn identify() -> &'static str {
    r#"<?xml version="1.0" encoding="UTF-8"?>
<OAI-PMH xmlns="http://www.openarchives.org/OAI/2.0/" xmlns:xsi="http://www.w3.org/2001/XMLSchema-instance" xsi:schemaLocation="http://www.openarchives.org/OAI/2.0/ http://www.openarchives.org/OAI/2.0/OAI-PMH.xsd"><responseDate>2024-01-01T00:00:00Z</responseDate><request verb="Identify">http://host.example/oai/a</request><Identify><repositoryName>Archive A</repositoryName><baseURL>http://host.example/oai/a</baseURL><protocolVersion>2.0</protocolVersion><adminEmail>a@host.example</adminEmail><earliestDatestamp>2024-01-01T00:00:00Z</earliestDatestamp><deletedRecord>persistent</deletedRecord><granularity>YYYY-MM-DDThh:mm:ssZ</granularity></Identify></OAI-PMH>
"#
}

/// Identify of a repository that two elements describe.
pub(super) fn identify_described() -> &'static str {
    r#"<?xml version="1.0" encoding="UTF-8"?>
<OAI-PMH xmlns="http://www.openarchives.org/OAI/2.0/" xmlns:xsi="http://www.w3.org/2001/XMLSchema-instance" xsi:schemaLocation="http://www.openarchives.org/OAI/2.0/ http://www.openarchives.org/OAI/2.0/OAI-PMH.xsd"><responseDate>2024-01-01T00:00:00Z</responseDate><request verb="Identify">http://host.example/oai/a</request><Identify><repositoryName>Archive A</repositoryName><baseURL>http://host.example/oai/a</baseURL><protocolVersion>2.0</protocolVersion><earliestDatestamp>2024-01-01T00:00:00Z</earliestDatestamp><deletedRecord>persistent</deletedRecord><granularity>YYYY-MM-DDThh:mm:ssZ</granularity><description><a xmlns="u" b="&quot;">&lt;</a></description><description><p:c xmlns:p="v" xmlns=""></p:c></description></Identify></OAI-PMH>
"#
}

/// Identify of a repository of days, with two administrators.
pub(super) fn identify_of_days() -> &'static str {
    r#"<?xml version="1.0" encoding="UTF-8"?>
<OAI-PMH xmlns="http://www.openarchives.org/OAI/2.0/" xmlns:xsi="http://www.w3.org/2001/XMLSchema-instance" xsi:schemaLocation="http://www.openarchives.org/OAI/2.0/ http://www.openarchives.org/OAI/2.0/OAI-PMH.xsd"><responseDate>2024-01-01T00:00:00Z</responseDate><request verb="Identify">http://host.example/oai/a</request><Identify><repositoryName>Archive B</repositoryName><baseURL>http://host.example/oai/a</baseURL><protocolVersion>2.0</protocolVersion><adminEmail>b@host.example</adminEmail><adminEmail>c@host.example</adminEmail><earliestDatestamp>2024-01-01</earliestDatestamp><deletedRecord>no</deletedRecord><granularity>YYYY-MM-DD</granularity></Identify></OAI-PMH>
"#
}

/// Identify of a repository that keeps deleted records for a while and names no administrator.
pub(super) fn identify_transient() -> &'static str {
    r#"<?xml version="1.0" encoding="UTF-8"?>
<OAI-PMH xmlns="http://www.openarchives.org/OAI/2.0/" xmlns:xsi="http://www.w3.org/2001/XMLSchema-instance" xsi:schemaLocation="http://www.openarchives.org/OAI/2.0/ http://www.openarchives.org/OAI/2.0/OAI-PMH.xsd"><responseDate>2024-01-01T00:00:00Z</responseDate><request verb="Identify">http://host.example/oai/a</request><Identify><repositoryName></repositoryName><baseURL>http://host.example/oai/a</baseURL><protocolVersion>2.0</protocolVersion><earliestDatestamp>0000-01-01T00:00:00Z</earliestDatestamp><deletedRecord>transient</deletedRecord><granularity>YYYY-MM-DDThh:mm:ssZ</granularity></Identify></OAI-PMH>
"#
}

/// The error badVerb, without attributes.
pub(super) fn bad_verb() -> &'static str {
    r#"<?xml version="1.0" encoding="UTF-8"?>
<OAI-PMH xmlns="http://www.openarchives.org/OAI/2.0/" xmlns:xsi="http://www.w3.org/2001/XMLSchema-instance" xsi:schemaLocation="http://www.openarchives.org/OAI/2.0/ http://www.openarchives.org/OAI/2.0/OAI-PMH.xsd"><responseDate>2024-01-01T00:00:00Z</responseDate><request>http://host.example/oai/a</request><error code="badVerb">The verb is missing, repeated or illegal.</error></OAI-PMH>
"#
}

/// The error badArgument, without attributes.
pub(super) fn bad_argument() -> &'static str {
    r#"<?xml version="1.0" encoding="UTF-8"?>
<OAI-PMH xmlns="http://www.openarchives.org/OAI/2.0/" xmlns:xsi="http://www.w3.org/2001/XMLSchema-instance" xsi:schemaLocation="http://www.openarchives.org/OAI/2.0/ http://www.openarchives.org/OAI/2.0/OAI-PMH.xsd"><responseDate>2024-01-01T00:00:00Z</responseDate><request>http://host.example/oai/a</request><error code="badArgument">An argument is illegal, missing, repeated or of illegal syntax.</error></OAI-PMH>
"#
}

/// The error badResumptionToken, with all attributes.
pub(super) fn bad_resumption_token() -> &'static str {
    r#"<?xml version="1.0" encoding="UTF-8"?>
<OAI-PMH xmlns="http://www.openarchives.org/OAI/2.0/" xmlns:xsi="http://www.w3.org/2001/XMLSchema-instance" xsi:schemaLocation="http://www.openarchives.org/OAI/2.0/ http://www.openarchives.org/OAI/2.0/OAI-PMH.xsd"><responseDate>2024-01-01T00:00:00Z</responseDate><request verb="GetRecord" identifier="i" metadataPrefix="p" from="f" until="u" set="s" resumptionToken="t">http://host.example/oai/a</request><error code="badResumptionToken">The resumption token is invalid or has expired.</error></OAI-PMH>
"#
}

/// The error cannotDisseminateFormat, with all attributes.
pub(super) fn cannot_disseminate_format() -> &'static str {
    r#"<?xml version="1.0" encoding="UTF-8"?>
<OAI-PMH xmlns="http://www.openarchives.org/OAI/2.0/" xmlns:xsi="http://www.w3.org/2001/XMLSchema-instance" xsi:schemaLocation="http://www.openarchives.org/OAI/2.0/ http://www.openarchives.org/OAI/2.0/OAI-PMH.xsd"><responseDate>2024-01-01T00:00:00Z</responseDate><request verb="GetRecord" identifier="i" metadataPrefix="p" from="f" until="u" set="s" resumptionToken="t">http://host.example/oai/a</request><error code="cannotDisseminateFormat">The metadata format is not available.</error></OAI-PMH>
"#
}

/// The error idDoesNotExist, with all attributes.
pub(super) fn id_does_not_exist() -> &'static str {
    r#"<?xml version="1.0" encoding="UTF-8"?>
<OAI-PMH xmlns="http://www.openarchives.org/OAI/2.0/" xmlns:xsi="http://www.w3.org/2001/XMLSchema-instance" xsi:schemaLocation="http://www.openarchives.org/OAI/2.0/ http://www.openarchives.org/OAI/2.0/OAI-PMH.xsd"><responseDate>2024-01-01T00:00:00Z</responseDate><request verb="GetRecord" identifier="i" metadataPrefix="p" from="f" until="u" set="s" resumptionToken="t">http://host.example/oai/a</request><error code="idDoesNotExist">No item has this identifier.</error></OAI-PMH>
"#
}

/// The error noRecordsMatch, with all attributes.
pub(super) fn no_records_match() -> &'static str {
    r#"<?xml version="1.0" encoding="UTF-8"?>
<OAI-PMH xmlns="http://www.openarchives.org/OAI/2.0/" xmlns:xsi="http://www.w3.org/2001/XMLSchema-instance" xsi:schemaLocation="http://www.openarchives.org/OAI/2.0/ http://www.openarchives.org/OAI/2.0/OAI-PMH.xsd"><responseDate>2024-01-01T00:00:00Z</responseDate><request verb="GetRecord" identifier="i" metadataPrefix="p" from="f" until="u" set="s" resumptionToken="t">http://host.example/oai/a</request><error code="noRecordsMatch">No records match.</error></OAI-PMH>
"#
}

/// The error noMetadataFormats, with all attributes.
pub(super) fn no_metadata_formats() -> &'static str {
    r#"<?xml version="1.0" encoding="UTF-8"?>
<OAI-PMH xmlns="http://www.openarchives.org/OAI/2.0/" xmlns:xsi="http://www.w3.org/2001/XMLSchema-instance" xsi:schemaLocation="http://www.openarchives.org/OAI/2.0/ http://www.openarchives.org/OAI/2.0/OAI-PMH.xsd"><responseDate>2024-01-01T00:00:00Z</responseDate><request verb="GetRecord" identifier="i" metadataPrefix="p" from="f" until="u" set="s" resumptionToken="t">http://host.example/oai/a</request><error code="noMetadataFormats">The item has no metadata formats.</error></OAI-PMH>
"#
}

/// The error noSetHierarchy, with all attributes.
pub(super) fn no_set_hierarchy() -> &'static str {
    r#"<?xml version="1.0" encoding="UTF-8"?>
<OAI-PMH xmlns="http://www.openarchives.org/OAI/2.0/" xmlns:xsi="http://www.w3.org/2001/XMLSchema-instance" xsi:schemaLocation="http://www.openarchives.org/OAI/2.0/ http://www.openarchives.org/OAI/2.0/OAI-PMH.xsd"><responseDate>2024-01-01T00:00:00Z</responseDate><request verb="GetRecord" identifier="i" metadataPrefix="p" from="f" until="u" set="s" resumptionToken="t">http://host.example/oai/a</request><error code="noSetHierarchy">The repository has no sets.</error></OAI-PMH>
"#
}

/// ListMetadataFormats of a repository of two formats.
pub(super) fn all_formats() -> &'static str {
    r#"<?xml version="1.0" encoding="UTF-8"?>
<OAI-PMH xmlns="http://www.openarchives.org/OAI/2.0/" xmlns:xsi="http://www.w3.org/2001/XMLSchema-instance" xsi:schemaLocation="http://www.openarchives.org/OAI/2.0/ http://www.openarchives.org/OAI/2.0/OAI-PMH.xsd"><responseDate>2024-01-01T00:00:00Z</responseDate><request verb="ListMetadataFormats">http://host.example/oai/a</request><ListMetadataFormats><metadataFormat><metadataPrefix>oai_dc</metadataPrefix><schema>http://www.openarchives.org/OAI/2.0/oai_dc.xsd</schema><metadataNamespace>http://www.openarchives.org/OAI/2.0/oai_dc/</metadataNamespace></metadataFormat><metadataFormat><metadataPrefix>jnl</metadataPrefix><schema>http://host.example/jnl.xsd</schema><metadataNamespace>http://host.example/jnl/</metadataNamespace></metadataFormat></ListMetadataFormats></OAI-PMH>
"#
}

/// ListMetadataFormats of an item with a record in oai_dc alone.
pub(super) fn formats_of_an_item() -> &'static str {
    r#"<?xml version="1.0" encoding="UTF-8"?>
<OAI-PMH xmlns="http://www.openarchives.org/OAI/2.0/" xmlns:xsi="http://www.w3.org/2001/XMLSchema-instance" xsi:schemaLocation="http://www.openarchives.org/OAI/2.0/ http://www.openarchives.org/OAI/2.0/OAI-PMH.xsd"><responseDate>2024-01-01T00:00:00Z</responseDate><request verb="ListMetadataFormats" identifier="oai:a:1">http://host.example/oai/a</request><ListMetadataFormats><metadataFormat><metadataPrefix>oai_dc</metadataPrefix><schema>http://www.openarchives.org/OAI/2.0/oai_dc.xsd</schema><metadataNamespace>http://www.openarchives.org/OAI/2.0/oai_dc/</metadataNamespace></metadataFormat></ListMetadataFormats></OAI-PMH>
"#
}

/// ListSets of two sets, of which two elements describe the first.
pub(super) fn described_sets() -> &'static str {
    r#"<?xml version="1.0" encoding="UTF-8"?>
<OAI-PMH xmlns="http://www.openarchives.org/OAI/2.0/" xmlns:xsi="http://www.w3.org/2001/XMLSchema-instance" xsi:schemaLocation="http://www.openarchives.org/OAI/2.0/ http://www.openarchives.org/OAI/2.0/OAI-PMH.xsd"><responseDate>2024-01-01T00:00:00Z</responseDate><request verb="ListSets">http://host.example/oai/a</request><ListSets><set><setSpec>x</setSpec><setName>X &amp; Y</setName><setDescription><a xmlns="u"></a></setDescription><setDescription><b xmlns=""></b></setDescription></set><set><setSpec>x:y</setSpec><setName>Y</setName></set></ListSets></OAI-PMH>
"#
}

/// ListSets of two sets.
pub(super) fn sets() -> &'static str {
    r#"<?xml version="1.0" encoding="UTF-8"?>
<OAI-PMH xmlns="http://www.openarchives.org/OAI/2.0/" xmlns:xsi="http://www.w3.org/2001/XMLSchema-instance" xsi:schemaLocation="http://www.openarchives.org/OAI/2.0/ http://www.openarchives.org/OAI/2.0/OAI-PMH.xsd"><responseDate>2024-01-01T00:00:00Z</responseDate><request verb="ListSets">http://host.example/oai/a</request><ListSets><set><setSpec>x</setSpec><setName>X &amp; Y</setName></set><set><setSpec>x:y</setSpec><setName>Y</setName></set></ListSets></OAI-PMH>
"#
}

/// GetRecord in oai_dc.
pub(super) fn first_record() -> &'static str {
    r#"<?xml version="1.0" encoding="UTF-8"?>
<OAI-PMH xmlns="http://www.openarchives.org/OAI/2.0/" xmlns:xsi="http://www.w3.org/2001/XMLSchema-instance" xsi:schemaLocation="http://www.openarchives.org/OAI/2.0/ http://www.openarchives.org/OAI/2.0/OAI-PMH.xsd"><responseDate>2024-01-01T00:00:00Z</responseDate><request verb="GetRecord" identifier="oai:a:1" metadataPrefix="oai_dc">http://host.example/oai/a</request><GetRecord><record><header><identifier>oai:a:1</identifier><datestamp>2024-01-01T00:00:00Z</datestamp></header><metadata><oai_dc:dc xmlns:oai_dc="http://www.openarchives.org/OAI/2.0/oai_dc/" xmlns:dc="http://purl.org/dc/elements/1.1/" xmlns:xsi="http://www.w3.org/2001/XMLSchema-instance" xsi:schemaLocation="http://www.openarchives.org/OAI/2.0/oai_dc/ http://www.openarchives.org/OAI/2.0/oai_dc.xsd"><dc:title>A &amp; B &lt; "C" é</dc:title></oai_dc:dc></metadata></record></GetRecord></OAI-PMH>
"#
}

/// GetRecord in a declared format, of an item that has two formats and is in two sets.
pub(super) fn declared_record() -> &'static str {
    r#"<?xml version="1.0" encoding="UTF-8"?>
<OAI-PMH xmlns="http://www.openarchives.org/OAI/2.0/" xmlns:xsi="http://www.w3.org/2001/XMLSchema-instance" xsi:schemaLocation="http://www.openarchives.org/OAI/2.0/ http://www.openarchives.org/OAI/2.0/OAI-PMH.xsd"><responseDate>2024-01-01T00:00:00Z</responseDate><request verb="GetRecord" identifier="oai:a:2" metadataPrefix="jnl">http://host.example/oai/a</request><GetRecord><record><header><identifier>oai:a:2</identifier><datestamp>2024-01-01T00:00:00Z</datestamp><setSpec>x:y</setSpec><setSpec>z</setSpec></header><metadata><article xmlns="http://host.example/jnl/" xmlns:xsi="http://www.w3.org/2001/XMLSchema-instance" xsi:schemaLocation="http://host.example/jnl/ http://host.example/jnl.xsd"><volume>7</volume></article></metadata></record></GetRecord></OAI-PMH>
"#
}

/// GetRecord in oai_dc of an item without fields, in a repository of days.
pub(super) fn record_without_fields() -> &'static str {
    r#"<?xml version="1.0" encoding="UTF-8"?>
<OAI-PMH xmlns="http://www.openarchives.org/OAI/2.0/" xmlns:xsi="http://www.w3.org/2001/XMLSchema-instance" xsi:schemaLocation="http://www.openarchives.org/OAI/2.0/ http://www.openarchives.org/OAI/2.0/OAI-PMH.xsd"><responseDate>2024-01-01T00:00:00Z</responseDate><request verb="GetRecord" identifier="oai:a:1" metadataPrefix="oai_dc">http://host.example/oai/a</request><GetRecord><record><header><identifier>oai:a:1</identifier><datestamp>2024-01-01</datestamp></header><metadata><oai_dc:dc xmlns:oai_dc="http://www.openarchives.org/OAI/2.0/oai_dc/" xmlns:dc="http://purl.org/dc/elements/1.1/" xmlns:xsi="http://www.w3.org/2001/XMLSchema-instance" xsi:schemaLocation="http://www.openarchives.org/OAI/2.0/oai_dc/ http://www.openarchives.org/OAI/2.0/oai_dc.xsd"></oai_dc:dc></metadata></record></GetRecord></OAI-PMH>
"#
}

/// GetRecord of a deleted record.
pub(super) fn deleted_record() -> &'static str {
    r#"<?xml version="1.0" encoding="UTF-8"?>
<OAI-PMH xmlns="http://www.openarchives.org/OAI/2.0/" xmlns:xsi="http://www.w3.org/2001/XMLSchema-instance" xsi:schemaLocation="http://www.openarchives.org/OAI/2.0/ http://www.openarchives.org/OAI/2.0/OAI-PMH.xsd"><responseDate>2024-01-01T00:00:00Z</responseDate><request verb="GetRecord" identifier="oai:a:2" metadataPrefix="jnl">http://host.example/oai/a</request><GetRecord><record><header status="deleted"><identifier>oai:a:2</identifier><datestamp>2024-01-01T00:00:01Z</datestamp><setSpec>x:y</setSpec><setSpec>z</setSpec></header></record></GetRecord></OAI-PMH>
"#
}

/// ListIdentifiers, whole: a header in sets and one without.
pub(super) fn headers() -> &'static str {
    r#"<?xml version="1.0" encoding="UTF-8"?>
<OAI-PMH xmlns="http://www.openarchives.org/OAI/2.0/" xmlns:xsi="http://www.w3.org/2001/XMLSchema-instance" xsi:schemaLocation="http://www.openarchives.org/OAI/2.0/ http://www.openarchives.org/OAI/2.0/OAI-PMH.xsd"><responseDate>2024-01-01T00:00:00Z</responseDate><request verb="ListIdentifiers" metadataPrefix="oai_dc">http://host.example/oai/a</request><ListIdentifiers><header><identifier>oai:a:1</identifier><datestamp>2024-01-01T00:00:00Z</datestamp></header><header><identifier>oai:a:2</identifier><datestamp>2024-01-01T00:00:01Z</datestamp><setSpec>x:y</setSpec><setSpec>z</setSpec></header></ListIdentifiers></OAI-PMH>
"#
}

/// ListIdentifiers, the first part of a list.
pub(super) fn headers_that_go_on() -> &'static str {
    r#"<?xml version="1.0" encoding="UTF-8"?>
<OAI-PMH xmlns="http://www.openarchives.org/OAI/2.0/" xmlns:xsi="http://www.w3.org/2001/XMLSchema-instance" xsi:schemaLocation="http://www.openarchives.org/OAI/2.0/ http://www.openarchives.org/OAI/2.0/OAI-PMH.xsd"><responseDate>2024-01-01T00:00:00Z</responseDate><request verb="ListIdentifiers" metadataPrefix="oai_dc">http://host.example/oai/a</request><ListIdentifiers><header><identifier>oai:a:1</identifier><datestamp>2024-01-01T00:00:00Z</datestamp></header><header><identifier>oai:a:2</identifier><datestamp>2024-01-01T00:00:01Z</datestamp><setSpec>x:y</setSpec><setSpec>z</setSpec></header><resumptionToken expirationDate="2024-01-01T00:01:01Z" completeListSize="3" cursor="0">1.2</resumptionToken></ListIdentifiers></OAI-PMH>
"#
}

/// ListIdentifiers, the last part of a list, its one header deleted.
pub(super) fn last_headers() -> &'static str {
    r#"<?xml version="1.0" encoding="UTF-8"?>
<OAI-PMH xmlns="http://www.openarchives.org/OAI/2.0/" xmlns:xsi="http://www.w3.org/2001/XMLSchema-instance" xsi:schemaLocation="http://www.openarchives.org/OAI/2.0/ http://www.openarchives.org/OAI/2.0/OAI-PMH.xsd"><responseDate>2024-01-01T00:00:00Z</responseDate><request verb="ListIdentifiers" resumptionToken="1.2">http://host.example/oai/a</request><ListIdentifiers><header status="deleted"><identifier>oai:a:2</identifier><datestamp>2024-01-01T00:00:01Z</datestamp><setSpec>x:y</setSpec><setSpec>z</setSpec></header><resumptionToken completeListSize="3" cursor="2"></resumptionToken></ListIdentifiers></OAI-PMH>
"#
}

/// ListRecords, whole: a live record and a deleted one, in oai_dc.
pub(super) fn records() -> &'static str {
    r#"<?xml version="1.0" encoding="UTF-8"?>
<OAI-PMH xmlns="http://www.openarchives.org/OAI/2.0/" xmlns:xsi="http://www.w3.org/2001/XMLSchema-instance" xsi:schemaLocation="http://www.openarchives.org/OAI/2.0/ http://www.openarchives.org/OAI/2.0/OAI-PMH.xsd"><responseDate>2024-01-01T00:00:00Z</responseDate><request verb="ListRecords" metadataPrefix="oai_dc">http://host.example/oai/a</request><ListRecords><record><header><identifier>oai:a:1</identifier><datestamp>2024-01-01T00:00:00Z</datestamp></header><metadata><oai_dc:dc xmlns:oai_dc="http://www.openarchives.org/OAI/2.0/oai_dc/" xmlns:dc="http://purl.org/dc/elements/1.1/" xmlns:xsi="http://www.w3.org/2001/XMLSchema-instance" xsi:schemaLocation="http://www.openarchives.org/OAI/2.0/oai_dc/ http://www.openarchives.org/OAI/2.0/oai_dc.xsd"><dc:title>A &amp; B &lt; "C" é</dc:title></oai_dc:dc></metadata></record><record><header status="deleted"><identifier>oai:a:2</identifier><datestamp>2024-01-01T00:00:01Z</datestamp><setSpec>x:y</setSpec><setSpec>z</setSpec></header></record></ListRecords></OAI-PMH>
"#
}

/// ListRecords in a declared format in a repository of days: the token expires at a second of its day.
pub(super) fn records_of_days() -> &'static str {
    r#"<?xml version="1.0" encoding="UTF-8"?>
<OAI-PMH xmlns="http://www.openarchives.org/OAI/2.0/" xmlns:xsi="http://www.w3.org/2001/XMLSchema-instance" xsi:schemaLocation="http://www.openarchives.org/OAI/2.0/ http://www.openarchives.org/OAI/2.0/OAI-PMH.xsd"><responseDate>2024-01-01T00:00:00Z</responseDate><request verb="ListRecords" metadataPrefix="jnl">http://host.example/oai/a</request><ListRecords><record><header><identifier>oai:a:2</identifier><datestamp>2024-01-01</datestamp><setSpec>x:y</setSpec><setSpec>z</setSpec></header><metadata><article xmlns="http://host.example/jnl/" xmlns:xsi="http://www.w3.org/2001/XMLSchema-instance" xsi:schemaLocation="http://host.example/jnl/ http://host.example/jnl.xsd"><volume>7</volume></article></metadata></record><resumptionToken expirationDate="2024-01-01T00:01:01Z" completeListSize="18446744073709551615" cursor="10">1.2</resumptionToken></ListRecords></OAI-PMH>
"#
}

/// ListRecords, the last part of a list, with two fields in the order of the record.
pub(super) fn last_records() -> &'static str {
    r#"<?xml version="1.0" encoding="UTF-8"?>
<OAI-PMH xmlns="http://www.openarchives.org/OAI/2.0/" xmlns:xsi="http://www.w3.org/2001/XMLSchema-instance" xsi:schemaLocation="http://www.openarchives.org/OAI/2.0/ http://www.openarchives.org/OAI/2.0/OAI-PMH.xsd"><responseDate>2024-01-01T00:00:00Z</responseDate><request verb="ListRecords" resumptionToken="1.100">http://host.example/oai/a</request><ListRecords><record><header><identifier>oai:a:1</identifier><datestamp>2024-01-01T00:00:00Z</datestamp></header><metadata><oai_dc:dc xmlns:oai_dc="http://www.openarchives.org/OAI/2.0/oai_dc/" xmlns:dc="http://purl.org/dc/elements/1.1/" xmlns:xsi="http://www.w3.org/2001/XMLSchema-instance" xsi:schemaLocation="http://www.openarchives.org/OAI/2.0/oai_dc/ http://www.openarchives.org/OAI/2.0/oai_dc.xsd"><dc:title>T</dc:title><dc:creator>C</dc:creator><dc:title></dc:title></oai_dc:dc></metadata></record><resumptionToken completeListSize="101" cursor="100"></resumptionToken></ListRecords></OAI-PMH>
"#
}

/// Markup in the texts of Identify.
pub(super) fn escaped_identify() -> &'static str {
    r#"<?xml version="1.0" encoding="UTF-8"?>
<OAI-PMH xmlns="http://www.openarchives.org/OAI/2.0/" xmlns:xsi="http://www.w3.org/2001/XMLSchema-instance" xsi:schemaLocation="http://www.openarchives.org/OAI/2.0/ http://www.openarchives.org/OAI/2.0/OAI-PMH.xsd"><responseDate>2024-01-01T00:00:00Z</responseDate><request verb="&amp;&lt;&gt;&quot;'&#13;&#9;&#10;é𝄞" identifier="&amp;&lt;&gt;&quot;'&#13;&#9;&#10;é𝄞" metadataPrefix="&amp;&lt;&gt;&quot;'&#13;&#9;&#10;é𝄞" from="&amp;&lt;&gt;&quot;'&#13;&#9;&#10;é𝄞" until="&amp;&lt;&gt;&quot;'&#13;&#9;&#10;é𝄞" set="&amp;&lt;&gt;&quot;'&#13;&#9;&#10;é𝄞" resumptionToken="&amp;&lt;&gt;&quot;'&#13;&#9;&#10;é𝄞">&amp;&lt;&gt;"'&#13;→
é𝄞</request><Identify><repositoryName>&amp;&lt;&gt;"'&#13;→
é𝄞</repositoryName><baseURL>&amp;&lt;&gt;"'&#13;→
é𝄞</baseURL><protocolVersion>2.0</protocolVersion><adminEmail>&amp;&lt;&gt;"'&#13;→
é𝄞</adminEmail><earliestDatestamp>2024-01-01</earliestDatestamp><deletedRecord>no</deletedRecord><granularity>YYYY-MM-DD</granularity></Identify></OAI-PMH>
"#
}

/// Markup in the texts of a format.
pub(super) fn escaped_formats() -> &'static str {
    r#"<?xml version="1.0" encoding="UTF-8"?>
<OAI-PMH xmlns="http://www.openarchives.org/OAI/2.0/" xmlns:xsi="http://www.w3.org/2001/XMLSchema-instance" xsi:schemaLocation="http://www.openarchives.org/OAI/2.0/ http://www.openarchives.org/OAI/2.0/OAI-PMH.xsd"><responseDate>2024-01-01T00:00:00Z</responseDate><request verb="&amp;&lt;&gt;&quot;'&#13;&#9;&#10;é𝄞" identifier="&amp;&lt;&gt;&quot;'&#13;&#9;&#10;é𝄞" metadataPrefix="&amp;&lt;&gt;&quot;'&#13;&#9;&#10;é𝄞" from="&amp;&lt;&gt;&quot;'&#13;&#9;&#10;é𝄞" until="&amp;&lt;&gt;&quot;'&#13;&#9;&#10;é𝄞" set="&amp;&lt;&gt;&quot;'&#13;&#9;&#10;é𝄞" resumptionToken="&amp;&lt;&gt;&quot;'&#13;&#9;&#10;é𝄞">&amp;&lt;&gt;"'&#13;→
é𝄞</request><ListMetadataFormats><metadataFormat><metadataPrefix>a'b</metadataPrefix><schema>&amp;&lt;&gt;"'&#13;→
é𝄞</schema><metadataNamespace>&amp;&lt;&gt;"'&#13;→
é𝄞</metadataNamespace></metadataFormat></ListMetadataFormats></OAI-PMH>
"#
}

/// Markup in the name of a set.
pub(super) fn escaped_sets() -> &'static str {
    r#"<?xml version="1.0" encoding="UTF-8"?>
<OAI-PMH xmlns="http://www.openarchives.org/OAI/2.0/" xmlns:xsi="http://www.w3.org/2001/XMLSchema-instance" xsi:schemaLocation="http://www.openarchives.org/OAI/2.0/ http://www.openarchives.org/OAI/2.0/OAI-PMH.xsd"><responseDate>2024-01-01T00:00:00Z</responseDate><request verb="&amp;&lt;&gt;&quot;'&#13;&#9;&#10;é𝄞" identifier="&amp;&lt;&gt;&quot;'&#13;&#9;&#10;é𝄞" metadataPrefix="&amp;&lt;&gt;&quot;'&#13;&#9;&#10;é𝄞" from="&amp;&lt;&gt;&quot;'&#13;&#9;&#10;é𝄞" until="&amp;&lt;&gt;&quot;'&#13;&#9;&#10;é𝄞" set="&amp;&lt;&gt;&quot;'&#13;&#9;&#10;é𝄞" resumptionToken="&amp;&lt;&gt;&quot;'&#13;&#9;&#10;é𝄞">&amp;&lt;&gt;"'&#13;→
é𝄞</request><ListSets><set><setSpec>x'y</setSpec><setName>&amp;&lt;&gt;"'&#13;→
é𝄞</setName></set></ListSets></OAI-PMH>
"#
}

/// Markup in an identifier, in the namespace and the schema of a format, in a field and in a token.
pub(super) fn escaped_records() -> &'static str {
    r#"<?xml version="1.0" encoding="UTF-8"?>
<OAI-PMH xmlns="http://www.openarchives.org/OAI/2.0/" xmlns:xsi="http://www.w3.org/2001/XMLSchema-instance" xsi:schemaLocation="http://www.openarchives.org/OAI/2.0/ http://www.openarchives.org/OAI/2.0/OAI-PMH.xsd"><responseDate>2024-01-01T00:00:00Z</responseDate><request verb="&amp;&lt;&gt;&quot;'&#13;&#9;&#10;é𝄞" identifier="&amp;&lt;&gt;&quot;'&#13;&#9;&#10;é𝄞" metadataPrefix="&amp;&lt;&gt;&quot;'&#13;&#9;&#10;é𝄞" from="&amp;&lt;&gt;&quot;'&#13;&#9;&#10;é𝄞" until="&amp;&lt;&gt;&quot;'&#13;&#9;&#10;é𝄞" set="&amp;&lt;&gt;&quot;'&#13;&#9;&#10;é𝄞" resumptionToken="&amp;&lt;&gt;&quot;'&#13;&#9;&#10;é𝄞">&amp;&lt;&gt;"'&#13;→
é𝄞</request><ListRecords><record><header><identifier>a:&amp;'1</identifier><datestamp>2024-01-01T00:00:00Z</datestamp><setSpec>x'y</setSpec></header><metadata><article xmlns="&amp;&lt;&gt;&quot;'&#13;&#9;&#10;é𝄞" xmlns:xsi="http://www.w3.org/2001/XMLSchema-instance" xsi:schemaLocation="&amp;&lt;&gt;&quot;'&#13;&#9;&#10;é𝄞 &amp;&lt;&gt;&quot;'&#13;&#9;&#10;é𝄞"><volume>&amp;&lt;&gt;"'&#13;→
é𝄞</volume></article></metadata></record><resumptionToken expirationDate="9999-12-31T23:59:59Z" completeListSize="0" cursor="0">&amp;&lt;&gt;"'&#13;→
é𝄞</resumptionToken></ListRecords></OAI-PMH>
"#
}
