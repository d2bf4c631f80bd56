//! Texts of the worked exchanges that several crates of tests use.

/// The first repository's answer to Identify at the moment 1704067200, in the shorthand of transcripts.
pub fn identify_document() -> &'static str {
    r#"DOC <responseDate>2024-01-01T00:00:00Z</responseDate><request verb="Identify">http://host.example/oai/a</request><Identify><repositoryName>Archive A</repositoryName><baseURL>http://host.example/oai/a</baseURL><protocolVersion>2.0</protocolVersion><adminEmail>a@host.example</adminEmail><earliestDatestamp>2024-01-01T00:00:00Z</earliestDatestamp><deletedRecord>persistent</deletedRecord><granularity>YYYY-MM-DDThh:mm:ssZ</granularity></Identify></OAI-PMH>"#
}

/// Its answer to a bad verb at that moment, in the shorthand.
pub fn bad_verb_document() -> &'static str {
    r#"DOC <responseDate>2024-01-01T00:00:00Z</responseDate><request>http://host.example/oai/a</request><error code="badVerb">The verb is missing, repeated or illegal.</error></OAI-PMH>"#
}
