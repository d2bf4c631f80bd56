//! Twenty lives of three repositories, as a model answers what is asked in them: written by scripts/run lives. A line is an answer's status, the seconds
//! of a 503, how many bytes its body has and their 64-bit FNV-1a hash, and then what is asked: the moment, the method, the target, and the body.

/// Their configuration.
pub(crate) fn configuration() -> &'static str {
    r##"{"cache": 1, "base": "http://host.example", "repositories": [{"name": "a", "repositoryName": "A generated archive", "adminEmail": ["a@host.example"], "earliestDatestamp": "2024-01-01T00:00:00Z", "deletedRecord": "persistent", "granularity": "seconds", "chunk": 2, "lifetime": 60, "lists": 1, "items": 1000, "formats": [{"prefix": "jnl", "schema": "http://host.example/jnl.xsd", "namespace": "http://host.example/jnl/", "root": "article", "fields": ["volume", "pages"]}]}, {"name": "b", "repositoryName": "A generated archive", "adminEmail": ["a@host.example"], "earliestDatestamp": "2024-01-01", "deletedRecord": "no", "granularity": "days", "chunk": 3, "lifetime": 10, "lists": 1, "items": 20, "formats": []}, {"name": "c", "repositoryName": "A generated archive", "adminEmail": ["a@host.example"], "earliestDatestamp": "2024-01-01T00:00:00Z", "deletedRecord": "transient", "granularity": "seconds", "chunk": 1, "lifetime": 60, "lists": 2, "items": 2, "formats": []}]}"##
}

/// What is asked and answered in them; each ends with the line `end`.
pub(crate) fn lives() -> &'static str {
    r##"200 - 428 2390527884394171028 1704067200 GET /oai/a?verb
200 - 486 15208100061328937544 1704067200 POST /oai/b?verb=Identify verb=ListRecords&resumptionToken=0.5
200 - 24 9587816524388360807 1704067200 POST /deposit/a {"deposit": "oai:a:75", "sets": [], "records": {"oai_dc": [["coverage", "catalogue \" between ' the on \u041f\u0440\u0438\u0432\u0435\u0442 index"], ["source", "&#13;\r\u00e9record"], ["creator", "\u2028\n'catalogue\"</dc:title>"], ["rights", "volumethesisthe\u0395\u03bb\u03bb\u03ac\u03b4\u03b1\t"]], "jnl": [["pages", "journal century index \ud835\udd18 between \r\n three"], ["pages", "\ud835\udd18\u0395\u03bb\u03bb\u03ac\u03b4\u03b1>\u007f\n"]]}}
200 - 24 9587816524388360807 1704067200 POST /deposit/a {"deposit": "oai:a:93", "sets": [], "records": {"oai_dc": []}}
200 - 24 8998070373011012176 1704067201 POST /deposit/c {"deposit": "oai:c:43", "sets": [], "records": {"oai_dc": []}}
200 - 24 10824672547798728861 1704067202 POST /deposit/c {"deposit": "oai:c:15", "sets": [], "records": {"oai_dc": [["publisher", "\r of of \" &amp; of"], ["description", "\u0627\u0644\u0639\u0631\u0628\u064a\u0629&amp;journalononof"], ["date", "record letter \ufffd <?x ?>"], ["rights", ""], ["date", "\""], ["contributor", "\r\u041f\u0440\u0438\u0432\u0435\u0442\r\u65e5\u672c\u8a9e"], ["source", "three < &amp; \u05e2\u05d1\u05e8\u05d9\u05ea"], ["source", "letter \u00a0 library"]]}}
200 - 490 5620148762278511098 1704067080 GET /oai/c?verb=ListIdentifiers&resumptionToken=1.1
200 - 1500 17328009482063217333 1704067081 POST /oai/a?verb=Identify verb=ListRecords&metadataPrefix=oai_dc
200 - 490 10386916175850479990 1704067081 GET /oai/a?verb=ListIdentifiers&resumptionToken=0.4
end
200 - 458 15625344719409728993 1704067081 GET /oai/b?metadataPrefix=oai_dc&verb=ListIdentifiers
200 - 24 9587816524388360807 1704067082 POST /deposit/a {"deposit": "oai:a:117", "sets": [], "records": {"oai_dc": [["identifier", "\" \u0141\u00f3d\u017a & \ud83d\ude00 \ud83d\ude00 \u0141\u00f3d\u017a thesis '"], ["publisher", "volume \r"], ["rights", "\r    ' and \u0141\u00f3d\u017a index two archive"], ["format", "\r\n&amp;"], ["contributor", "\n < harvest"]]}}
200 - 458 15625344719409728993 1704067082 GET /oai/b?metadataPrefix=oai_dc&verb=ListIdentifiers
200 - 24 9587816524388360807 1704067082 POST /deposit/a {"delete": "oai:a:93"}
200 - 486 9344579331934684236 1704067082 GET /oai/b?verb=ListRecords&resumptionToken=4.5
200 - 490 4707101217810282933 1704067082 GET /oai/a?resumptionToken=5.4&verb=ListIdentifiers
200 - 486 11508976731298173309 1704067083 GET /oai/c?resumptionToken=4.7&verb=ListRecords
200 - 24 9587816524388360807 1704067084 POST /deposit/a {"deposit": "oai:a:48", "sets": [], "records": {"oai_dc": [["title", "\"and"], ["description", "index"], ["date", "\ud835\udd18"], ["relation", "<!-- ' \u00a0 harvest \u05e2\u05d1\u05e8\u05d9\u05ea &#13; between"], ["rights", "\r\nthesis  </dc:title>"]], "jnl": [["pages", "<!-- \u0141\u00f3d\u017a three three"], ["pages", "\u05e2\u05d1\u05e8\u05d9\u05ea century the \t </dc:title> \ud83d\ude00 \u007f \""], ["pages", "&#13;</dc:title>>\u05e2\u05d1\u05e8\u05d9\u05ea\u00a0\u041f\u0440\u0438\u0432\u0435\u0442"], ["pages", "\u007fofvolume&amp;recordon\t"], ["pages", "three \u0141\u00f3d\u017a library </dc:title> thesis &"], ["pages", "century"], ["pages", "&#13;    catalogue \u0141\u00f3d\u017a two e\u0301 \u041f\u0440\u0438\u0432\u0435\u0442"], ["pages", "\ufffd the"]]}}
200 - 486 18390334005819477121 1704067085 GET /oai/a?resumptionToken=5.6&verb=ListRecords
end
200 - 490 10206356094586546120 1704067086 GET /oai/b?resumptionToken=0.3&verb=ListIdentifiers verb=Identify
200 - 478 8005409267430141661 1704067086 POST /oai/a?verb=Identify set=x%3Ay&metadataPrefix=oai_dc&verb=ListIdentifiers
405 - 0 14695981039346656037 1704067086 GET /deposit/a
200 - 486 11938909072498232367 1704067086 GET /oai/a?resumptionToken=3.6&verb=ListRecords
200 - 24 594109529310592998 1704067086 POST /deposit/a {"delete":"x","delete":"oai:a:31"}
200 - 987 9951163375575096296 1704067119 GET /oai/c?verb=ListRecords&metadataPrefix=oai_dc&until=2024-01-01T00%3A00%3A11Z
200 - 21 8987565000069097396 1704067119 POST /deposit/b {"set": "q:r", "name": "on"}
200 - 1289 8342525202342060235 1704067119 GET /oai/c?resumptionToken=1.1&verb=ListRecords verb=Identify
200 - 24 594109529310592998 1704067072 POST /deposit/b {"delete": "oai:b:114"}
end
200 - 24 10824672547798728861 1704067072 POST /deposit/c {"delete": "oai:c:43"}
200 - 482 17233896262598133855 1704067073 GET /oai/b?verb=GetRecord&metadataPrefix=jnl&identifier=oai:b:71
200 - 763 15573491143575460029 1704067075 GET /oai/a?until=2024-01-01T00%3A00%3A00Z&metadataPrefix=oai_dc&verb=ListIdentifiers
200 - 485 15063717845707279943 1704067075 GET /oai/a?identifier=oai%3Aa%3A94&metadataPrefix=oai_dc&verb=GetRecord
200 - 686 15191674059179191636 1704067075 GET /oai/b?%76erb=%49dentify
200 - 707 7869379326575108727 1704067075 GET /oai/a?resumptionToken=1.2&verb=ListIdentifiers
200 - 622 11690182219540092751 1704067076 GET /oai/a?metadataPrefix=jnl&verb=ListIdentifiers
200 - 707 7869379326575108727 1704067090 GET /oai/a?resumptionToken=1.2&verb=ListIdentifiers
200 - 21 8987565000069097396 1704067090 POST /deposit/a {"set": "letters:early", "name": "العربية volume \n"}
end
200 - 707 7869379326575108727 1704067091 GET /oai/a?verb=ListIdentifiers&resumptionToken=1.2
400 - 0 14695981039346656037 1704067091 GET http://host.example/oai/a?verb=Identify
200 - 21 8987565000069097396 1704067091 POST /deposit/a {"set": "x:y", "name": "\r"}
200 - 19 5547931748659278610 1704067091 POST /deposit/a {"delete":"oai:a:128",}
200 - 486 2232015873025403889 1704067091 GET /oai/c?resumptionToken=1.2&verb=ListRecords
200 - 24 9587816524388360807 1704067091 POST /deposit/a {"set": "xy", "name": "volume \r > between 😀 Łódź between \n"}
200 - 486 2232015873025403889 1704067091 GET /oai/c?verb=ListRecords&resumptionToken=1.2
200 - 1289 8342525202342060235 1704067091 GET /oai/c?verb=ListRecords&resumptionToken=1.1
200 - 485 13223659337946404085 1704067091 GET /oai/a?identifier=oai:a:52&metadataPrefix=oai_dc&verb=GetRecord
end
200 - 24 9587816524388360807 1704067092 POST /deposit/a {"deposit": "oai:a:80", "sets": ["xy", "xy"], "records": {"oai_dc": []}}
200 - 24 9587816524388360807 1704067092 POST /deposit/a {"delete": "oai:a:117"}
503 60 0 14695981039346656037 1704067094 POST /oai/a?verb=Identify verb=ListRecords&metadataPrefix=oai_dc
200 - 486 8114849799933337074 1704067094 GET /oai/a?verb=GetRecord&identifier=oai:a:123&metadataPrefix=oai_dc
200 - 24 9587816524388360807 1704067094 POST /deposit/a {"deposit": "oai:a:77", "sets": ["xy", "xy"], "records": {"oai_dc": []}}
200 - 25 16238810923436343557 1704067094 POST /deposit/a {"purge": "2023-12-31T23:59:59Z"}
200 - 454 12409012498034169163 1704067094 GET /oai/b?verb=ListIdentifiers&metadataPrefix=oai_dc&x=%ff%
200 - 820 13051561663730952375 1704067095 GET /oai/a?verb=ListMetadataFormats
200 - 707 7869379326575108727 1704067095 GET /oai/a?verb=ListIdentifiers&resumptionToken=1.2
end
200 - 485 18072621457049541028 1704067095 POST /oai/a verb=GetRecord&identifier=oai:a:97&metadataPrefix=oai_dc
200 - 24 10824672547798728861 1704067095 POST /deposit/c {"set": "xy", "name": "between"}
200 - 24 10824672547798728861 1704067095 POST /deposit/c {"purge": "2024-01-01T00:00:12Z"}
200 - 14 11853833739348246897 1704067095 POST /deposit/b {"deposit": "oai:b:117", "sets": [], "records": {"oai_dc": [["identifier", "\u00dfthe\u0141\u00f3d\u017a\u0141\u00f3d\u017abetween&#13;<!--]]>"], ["format", "the"], ["subject", "record &amp; ' \r < \u007f"], ["title", "& <?x ?> \u65e5\u672c\u8a9e"]]}}
200 - 707 7869379326575108727 1704067095 GET /oai/a?verb=ListIdentifiers&resumptionToken=1.2
200 - 482 13778052298803825573 1704067095 POST /oai/a metadataPrefix=jnl&verb=GetRecord&identifier=oai:a:39
200 - 532 7024159857851018065 1704067095 POST /oai/c?verb=Identify verb=ListIdentifiers&metadataPrefix=oai_dc
200 - 21 8987565000069097396 1704067077 POST /deposit/b {"set": "x:y", "name": "𝔘"}
404 - 0 14695981039346656037 1704066941 GET /oai/z
end
200 - 707 7869379326575108727 1704066812 GET /oai/a?resumptionToken=1.2&verb=ListIdentifiers
200 - 707 7869379326575108727 1704066812 GET /oai/a?resumptionToken=1.2&verb=ListIdentifiers
200 - 23 8660994148792773435 1704066812 POST /deposit/b {"deposit":"oai:b:116","sets":["x:"],"records":{}}
200 - 486 10248607472877506814 1704066813 GET /oai/c?metadataPrefix=oai_dc&verb=GetRecord&identifier=oai:c:110
200 - 24 9587816524388360807 1704066814 POST /deposit/a {"deposit": "oai:a:59", "sets": ["xy", "xy"], "records": {"oai_dc": []}}
200 - 490 14179226699225491602 1704067260 GET /oai/a?verb=ListIdentifiers&resumptionToken=1.2
200 - 1289 11905045345647671120 1704067245 POST /oai/c?verb=Identify verb=ListRecords&resumptionToken=1.1
200 - 24 5167030036609525590 1704067245 POST /deposit/a {"delete": "oai:a:80"}
200 - 14 11853833739348246897 1704067245 POST /deposit/b {"delete": "oai:b:117"}
end
200 - 24 5167030036609525590 1704067245 POST /deposit/a {"deposit": "oai:a:42", "sets": ["xy", "xy"], "records": {"oai_dc": [["identifier", "&amp;&amp;\u041f\u0440\u0438\u0432\u0435\u0442&#13;\u65e5\u672c\u8a9ethe\u007f"], ["language", "archive & index    < catalogue '"], ["description", "between of"], ["contributor", "<?x ?> \u00e9 letter ' \ufffd \r\n and"], ["title", "century of <?x ?> <!--"]], "jnl": [["volume", ""], ["pages", "]]>"], ["pages", "]]>"], ["volume", "volume \u00e9 \ud835\udd18 of of"], ["volume", "</dc:title>ofe\u0301"], ["volume", "<!-- of catalogue \u0627\u0644\u0639\u0631\u0628\u064a\u0629 \r\n"], ["volume", "\u05e2\u05d1\u05e8\u05d9\u05ea e\u0301 \u007f"], ["pages", "e\u0301 \u0395\u03bb\u03bb\u03ac\u03b4\u03b1 letter \u00df"]]}}
200 - 472 12159647204486878614 1704067189 GET /oai/a?verb=ListMetadataFormats&identifier=oai:a:141
200 - 1302 16094636100428277316 1704067190 POST /oai/a?verb=Identify verb=ListRecords&metadataPrefix=oai_dc
200 - 472 18440822822911446749 1704067190 GET /oai/b?verb=ListRecords&from=2024-01-01&metadataPrefix=oai_dc
200 - 1627 2625828710141183378 1704067190 GET /oai/a?verb=ListRecords&resumptionToken=2.2
200 - 24 5167030036609525590 1704067190 POST /deposit/a {"delete": "oai:a:75"}
200 - 1289 11905045345647671120 1704067190 GET /oai/c?verb=ListRecords&resumptionToken=1.1
405 - 0 14695981039346656037 1704067190 PUT /oai/a x
200 - 1104 9331265852897669164 1704067190 GET /oai/a?verb=ListRecords&resumptionToken=2.4
end
200 - 486 18320321739574120124 1704067191 POST /oai/c?verb=Identify resumptionToken=1.2&verb=ListRecords
200 - 486 10673424555081580415 1704067191 GET /oai/a?resumptionToken=2.8&verb=ListRecords
200 - 454 10942114346524709228 1704067225 GET /oai/b?verb=ListRecords&metadataPrefix=oai_dc
200 - 468 12189395982934104835 1704067226 GET /oai/c?set=letters&verb=ListRecords&metadataPrefix=oai_dc
200 - 1400 9563887288923133591 1704067227 GET /oai/a?verb=ListRecords&resumptionToken=2.6
200 - 485 272362919675110175 1704067227 GET /oai/b?metadataPrefix=oai_dc&identifier=oai:b:68&verb=GetRecord
200 - 1400 9563887288923133591 1704067227 POST /oai/a?verb=Identify verb=ListRecords&resumptionToken=2.6
200 - 1289 11905045345647671120 1704067227 GET /oai/c?resumptionToken=1.1&verb=ListRecords
200 - 24 5167030036609525590 1704067227 POST /deposit/a {"deposit": "oai:a:3", "sets": ["xy", "xy"], "records": {"oai_dc": [["language", "\ud83d\ude00\r\n\ufffd\u00df\r\nand"], ["source", "thesis volume \ud83d\ude00 the \ud83d\ude00"], ["description", "& \r\n \r journal \u0141\u00f3d\u017a < two"]], "jnl": [["volume", "\ud835\udd18and"], ["volume", "\u0141\u00f3d\u017a"], ["pages", ""]]}}
end
503 60 0 14695981039346656037 1704067227 GET /oai/a?metadataPrefix=oai_dc&verb=ListIdentifiers&from=2024-01-01T00%3A00%3A01Z
200 - 1289 11905045345647671120 1704067227 GET /oai/c?resumptionToken=1.1&verb=ListRecords
200 - 1289 11905045345647671120 1704067143 GET /oai/c?resumptionToken=1.1&verb=ListRecords
200 - 486 13602771347232967881 1704067143 POST /oai/a verb=ListRecords&resumptionToken=4.0
200 - 481 7483156171512269234 1704067143 GET /oai/a?identifier=oai:a:68&metadataPrefix=zz&verb=GetRecord
200 - 14 11853833739348246897 1704067186 POST /deposit/b {"set": "letters", "name": "&#13;-->\ud83d\ude00between"}
200 - 27 1202758928932028422 1704067186 POST /deposit/a {"delete": "oai:a:93"}
200 - 454 5632192517085486300 1704067187 GET /oai/b?metadataPrefix=oai_dc&verb=ListRecords&until=2024-01-01T00:00:55Z
200 - 1400 9563887288923133591 1704067188 POST /oai/a?verb=Identify resumptionToken=2.6&verb=ListRecords
end
200 - 24 5167030036609525590 1704067189 POST /deposit/a {"delete": "oai:a:48"}
200 - 24 5167030036609525590 1704067189 POST /deposit/a {"deposit": "oai:a:115", "sets": [], "records": {"oai_dc": [["identifier", "index<?x ?>\u0395\u03bb\u03bb\u03ac\u03b4\u03b1between\r\nthree"], ["creator", "library"]]}}
200 - 24 5167030036609525590 1704067190 POST /deposit/a {"delete": "oai:a:42"}
200 - 1289 11905045345647671120 1704067191 POST /oai/c verb=ListRecords&resumptionToken=1.1
200 - 24 12946454086806084038 1704067321 POST /deposit/c {"purge": "2024-01-01T00:00:45Z"}
200 - 486 3790404871458033534 1704067322 POST /oai/a verb=ListRecords&resumptionToken=2.0
405 - 0 14695981039346656037 1704067322 DELETE /deposit/b
200 - 493 516137329060249292 1704067322 GET /oai/a?verb=ListSets
200 - 486 7359236322315544580 1704067322 POST /oai/a?verb=Identify resumptionToken=5.5&verb=ListRecords
end
200 - 24 12429420838411204159 1704067322 POST /deposit/c {"deposit": "oai:c:24", "sets": ["xy", "xy", "xy"], "records": {"oai_dc": [["publisher", "<?x ?>>'two😀letter<!--]]>"], ["type", "\r\n עברית"], ["publisher", "日本語日本語életter"]]}}
200 - 887 3781497943422050658 1704067322 GET /oai/a?verb=GetRecord&metadataPrefix=oai_dc&identifier=oai:a:59
200 - 802 2137367465003515253 1704067322 POST /oai/a metadataPrefix=oai_dc&until=2024-01-01T00:01:00Z&verb=ListIdentifiers
200 - 21 8987565000069097396 1704067329 POST /deposit/c {"set": "x:y", "name": "index]]>record  "}
200 - 458 9938071144814160118 1704067330 GET /oai/b?verb=ListIdentifiers&metadataPrefix=oai_dc
404 - 0 14695981039346656037 1704067330 POST /deposit/z x
200 - 24 627335555356330360 1704067330 POST /deposit/c {"delete": "oai:c:24"}
200 - 26 3218989695427616425 1704067331 POST /deposit/c {"deposit": "oai:c:53", "sets": ["xy", "xy"], "records": {"oai_dc": [["title", "journal"], ["date", "Привет\r\nlibrary<the"], ["type", "and Łódź"], ["language", "catalogue"], ["relation", ""], ["rights", "recordالعربيةand日本語العربية&amp;\té"], ["type", "betweenonbetweenindexbetween&amp;Ελλάδα<"], ["title", ""]]}}
200 - 490 13313213699928697835 1704067331 POST /oai/a?verb=Identify verb=ListIdentifiers&resumptionToken=3.0
end
200 - 24 1734079770756456118 1704067332 POST /deposit/a {"delete": "oai:a:59"}
200 - 486 17101777941864419447 1704067383 GET /oai/a?identifier=oai%3Aa%3A111&verb=GetRecord&metadataPrefix=oai_dc
200 - 486 15342871828097267747 1704067383 GET /oai/b?resumptionToken=0.2&verb=ListRecords
200 - 490 489255257004833996 1704067383 GET /oai/a?verb=ListIdentifiers&resumptionToken=4.4
200 - 19 5547931748659278610 1704067383 POST /deposit/c {"delete":"oai:c:8",}
200 - 486 3777091441009751471 1704067383 GET /oai/a?resumptionToken=5.2&verb=ListRecords
200 - 486 4575010164812224606 1704067383 GET /oai/a?verb=ListRecords&resumptionToken=5.1
200 - 490 7221872803013864521 1704067289 GET /oai/a?resumptionToken=3.4&verb=ListIdentifiers
404 - 0 14695981039346656037 1704067289 GET /oai/%61
end
200 - 490 13314530648268090598 1704067289 GET /oai/b?verb=ListIdentifiers&resumptionToken=4.3
200 - 490 489255257004833996 1704067290 GET /oai/a?verb=ListIdentifiers&resumptionToken=4.4
200 - 490 14338441742351366933 1704067093 POST /oai/a?verb=Identify resumptionToken=3.0&verb=ListIdentifiers
200 - 486 2668916939632437431 1704067093 GET /oai/a?verb=ListRecords&resumptionToken=0.3
200 - 486 1850885324159914855 1704067094 GET /oai/b?verb=GetRecord&metadataPrefix=oai_dc&identifier=oai:b:104
200 - 482 10178946768419864902 1704067094 POST /oai/b verb=GetRecord&metadataPrefix=jnl&identifier=oai%3Ab%3A81
200 - 454 14560272355086257362 1704067094 GET /oai/c?verb=GetRecord&identifier=%00&metadataPrefix=oai_dc
200 - 14 11853833739348246897 1704067095 POST /deposit/b {"deposit": "oai:b:31", "sets": ["letters"], "records": {"oai_dc": [["identifier", "on<!--indexlibraryindex"], ["format", "e\u0301twotwocentury"], ["creator", "journal&\r\n\ud83d\ude00&amp;</dc:title>"], ["rights", "'lettere\u0301<!--e\u0301"], ["source", "\u041f\u0440\u0438\u0432\u0435\u0442"], ["date", "harvest&#13;\u2028century'"], ["identifier", "\u00df \u0395\u03bb\u03bb\u03ac\u03b4\u03b1 century journal index thesis &#13;"], ["title", "</dc:title>letter"]]}}
200 - 482 18320764029519075276 1704067095 GET /oai/c?metadataPrefix=jnl&verb=GetRecord&identifier=oai:c:92
end
200 - 574 9350624752441401483 1704067095 GET /oai/a?metadataPrefix=zzzzzzzzzzzzzzzzzzzzzzzzzzzzzzzzzzzzzzzzzzzzzzzzzzzzzzzzzzzzzzzzz&verb=ListIdentifiers&from=2024-01-01T00%3A00%3A00Z
200 - 1126 4561200956881558142 1704067096 POST /oai/a?verb=Identify from=2024-01-01&verb=ListRecords&metadataPrefix=oai_dc
200 - 14 11853833739348246897 1704067096 POST /deposit/b {"delete": "oai:b:31"}
200 - 1195 17473556695167678867 1704067096 GET /oai/a?verb=ListRecords&resumptionToken=4.2
503 60 0 14695981039346656037 1704067096 GET /oai/a?until=2024-01-01T00:01:10Z&verb=ListIdentifiers&metadataPrefix=jnl
200 - 458 12140368111491367587 1704067170 GET /oai/b?verb=ListIdentifiers&metadataPrefix=oai_dc
200 - 24 5306759997268971137 1704067170 POST /deposit/c {"purge": "2024-01-01T00:02:11Z"}
200 - 493 11178048453415859970 1704067170 POST /oai/a verb=ListSets
200 - 24 594109529310592998 1704067213 POST /deposit/b {"delete": "oai:b:116"}
end
200 - 24 5306759997268971137 1704067082 POST /deposit/a {"deposit": "oai:a:39", "sets": [], "records": {"oai_dc": [["identifier", ""], ["identifier", "<!--e\u0301<!--letter\ufffdindex"]], "jnl": [["volume", "and \u00a0 on"], ["pages", ">on\u041f\u0440\u0438\u0432\u0435\u0442harvest\u0395\u03bb\u03bb\u03ac\u03b4\u03b1archive"], ["pages", ""]]}}
200 - 22 16268608682335122124 1704067082 POST /deposit/a null
200 - 480 3689898555479183719 1704067083 GET /oai/b?metadataPrefix=jnl&verb=ListRecords
200 - 24 5306759997268971137 1704067055 POST /deposit/c {"deposit": "oai:c:33", "sets": ["xy", "xy"], "records": {"oai_dc": [["creator", ""], ["title", ""]]}}
200 - 14 11853833739348246897 1704067055 POST /deposit/b {"deposit": "oai:b:45", "sets": ["letters", "letters"], "records": {"oai_dc": [["identifier", "of>\""], ["creator", "index ' ß <"], ["date", "العربيةעברית\n�&"], ["contributor", "index&#13;\nlibrary"], ["description", "harvest-->]]><Привет"], ["coverage", "&amp; é <!-- the <!-- library <?x ?>"], ["publisher", "é � 😀 </dc:title> journal <?x ?> <!-- \n"]]}}
200 - 487 6218546693474137450 1704067056 GET /oai/a?metadataPrefix=oai_dc&until=2023-12-31T23:59:59Z&verb=ListIdentifiers
200 - 428 9269254791372778470 1704067056 GET /oai/a?
200 - 486 17338189805733510226 1704067058 GET /oai/a?resumptionToken=4.0&verb=ListRecords
200 - 24 5306759997268971137 1704067058 POST /deposit/a {"deposit": "oai:a:15", "sets": ["xy", "xy", "xy"], "records": {"oai_dc": [["rights", "index&\">two"], ["contributor", "\u0395\u03bb\u03bb\u03ac\u03b4\u03b1 <!-- of \r \u0141\u00f3d\u017a letter \u041f\u0440\u0438\u0432\u0435\u0442 -->"], ["subject", "\u2028 harvest --> three \""], ["source", "<!-- \u2028 three harvest"], ["description", "\u00a0 \u00e9 &amp; \u007f < ' \r\n"]], "jnl": [["pages", "on\u0395\u03bb\u03bb\u03ac\u03b4\u03b1\u65e5\u672c\u8a9eof\ufffd"], ["volume", "\r"], ["pages", "<"], ["volume", "library \u007f \ud83d\ude00"], ["volume", "' \u65e5\u672c\u8a9e ]]> &#13; > <!-- \u65e5\u672c\u8a9e"], ["volume", "\ufffd"], ["pages", "harvestthesiscentury\u00e9betweencataloguelibrary\u007f"], ["volume", "\u00df \u00a0 journal e\u0301 \u007f \n &#13;"]]}}
end
200 - 24 5306759997268971137 1704067058 POST /deposit/a {"set": "x", "name": "]]>\u00a0harvest"}
503 60 0 14695981039346656037 1704067058 GET /oai/a?verb=ListRecords&metadataPrefix=oai_dc
200 - 24 5306759997268971137 1704067058 POST /deposit/c {"purge": "2024-01-01T00:00:12Z"}
200 - 1302 6248930937578800245 1704067008 GET /oai/a?verb=ListRecords&resumptionToken=4.4
200 - 24 5306759997268971137 1704067048 POST /deposit/a {"deposit": "oai:a:0", "sets": ["x"], "records": {"oai_dc": [["language", "journaltwo\u00dfbetween\u00dfindex\u00a0"], ["format", ""], ["coverage", ""], ["type", "&#13; volume \u0627\u0644\u0639\u0631\u0628\u064a\u0629 </dc:title> \u0141\u00f3d\u017a \ufffd"], ["subject", "\u007f\u0395\u03bb\u03bb\u03ac\u03b4\u03b1\n"], ["rights", "volume \t the --> <?x ?>"], ["identifier", "\u00dflibraryharvest\u65e5\u672c\u8a9evolume]]>"]]}}
200 - 25 8217326265700297163 1704067048 POST /deposit/a {"deposit":"","sets":[],"records":{"oai_dc":[]}}
200 - 788 10273280383267340570 1704067048 GET /oai/a?resumptionToken=4.6&verb=ListRecords
405 - 0 14695981039346656037 1704067049 DELETE /deposit/b
200 - 14 11853833739348246897 1704067049 POST /deposit/b {"deposit": "oai:b:22", "sets": [], "records": {"oai_dc": [["title", "letter \u05e2\u05d1\u05e8\u05d9\u05ea ]]> \ud83d\ude00 &#13; <"], ["publisher", "\nletter'"], ["publisher", ""], ["source", "\u007f\ud83d\ude00>"], ["description", "</dc:title><\ufffd\u041f\u0440\u0438\u0432\u0435\u0442\u65e5\u672c\u8a9e\nletter]]>"], ["identifier", "catalogue thesis e\u0301 ]]> index"], ["type", "two"]]}}
end
200 - 789 13116341235565166063 1704067050 GET /oai/a?resumptionToken=4.8&verb=ListRecords
200 - 19 10318582319840066989 1704067080 POST /deposit/a {"set": "xy", "name": ""}
200 - 483 15180461227423202104 1704067080 GET /oai/a?verb=ListIdentifiers&metadataPrefix=zz
200 - 511 14274434433343605377 1704067081 GET /oai/a?from=2024-01-01T00%3A00%3A00Z&metadataPrefix=zz&verb=ListIdentifiers
200 - 24 358822966673171463 1704067081 POST /deposit/a {"deposit":"oai:a:136","sets":[],"records":{"oai_dc":[["zz","t"]]}}
200 - 490 10039176126137570315 1704067081 GET /oai/a?resumptionToken=0.1&verb=ListIdentifiers
200 - 511 14274434433343605377 1704067081 GET /oai/a?metadataPrefix=zz&from=2024-01-01T00:00:00Z&verb=ListIdentifiers
200 - 490 12521386445153844193 1704067082 GET /oai/a?verb=ListIdentifiers&resumptionToken=4.7
200 - 24 5306759997268971137 1704067083 POST /deposit/a {"deposit": "oai:a:96", "sets": ["x", "xy", "xy"], "records": {"oai_dc": [["language", ""], ["creator", ""], ["date", "\r\r\n"], ["source", ""], ["relation", "\u0627\u0644\u0639\u0631\u0628\u064a\u0629"]]}}
end
200 - 486 1325592813310979553 1704067083 GET /oai/c?verb=ListRecords&resumptionToken=1.2
200 - 487 4766159782384506907 1704067084 POST /oai/a?verb=Identify resumptionToken=4.10&verb=ListRecords
200 - 788 10273280383267340570 1704067084 GET /oai/a?resumptionToken=4.6&verb=ListRecords
200 - 14 11853833739348246897 1704067123 POST /deposit/b {"set": "x", "name": "volume letter &amp;"}
200 - 26 3218989695427616425 1704067124 POST /deposit/c {"deposit": "oai:c:84", "sets": [], "records": {"oai_dc": [["type", "\n>e\u0301]]>\u65e5\u672c\u8a9e\r"], ["identifier", "volume]]>\"-->\u0627\u0644\u0639\u0631\u0628\u064a\u0629record&amp;"], ["relation", "> three \u0627\u0644\u0639\u0631\u0628\u064a\u0629 &amp; < \u00df"], ["title", "\r'the&#13;archive\r\u00a0"], ["relation", "harvest on"]]}}
200 - 454 12733418518713290353 1704067124 GET /oai/b?metadataPrefix=oai_dc&verb=ListIdentifiers&from=2024-01-01T00%3A03%3A03Z
200 - 24 5306759997268971137 1704067124 POST /deposit/a {"deposit": "oai:a:66", "sets": ["xy", "x", "x"], "records": {"oai_dc": [["rights", ""], ["description", "& journal <!-- &#13; \" \u0627\u0644\u0639\u0631\u0628\u064a\u0629 library archive"]]}}
200 - 486 51715210868139961 1704067443 POST /oai/a resumptionToken=4.8&verb=ListRecords
200 - 21 8987565000069097396 1704067323 POST /deposit/a {"set": "x:y:z", "name": "עברית\t  '<עברית"}
end"##
}
