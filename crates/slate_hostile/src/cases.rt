//! The scripts.

/// Words, and a script.
pub type Case = (&'static [&'static str], &'static [u8]);

/// The word of a version of tables, and whether a checksum there covers the place of its section too.
pub type Format = (&'static [&'static str], bool);

/// The versions of tables.
pub const FORMATS: &[Format] = &[
    (&["format=v1"], false),
    (&["format=v2"], false),
    (&["format=v3"], true),
];

/// No filters, and filters of whole keys and of prefixes.
pub const FILTERS: &[&[&str]] = &[
    &["filter=none"],
    &["filter=_bf", "filter=_bf:p=fixed4:wh=0"],
];

/// A row, two flushes, blocks of one row each in both orders, operands, and segments; then bytes changed by a transformer, tables of one row, a
/// snapshot, prefixes in two tables, and operands in two tables.
pub const TEN: &[Case] = &[
    (
        &[],
        b"write put 'a '1\nflush\nbegin t si\nget t 'a\nget t 'b\n",
    ),
    (
        &[],
        b"write put 'a '1\nflush\nbegin t si\nget t 'a\nwrite put 'b '2 delete 'a\nflush\nbegin u si\nget u 'b\nget u 'a\nget t 'a\n",
    ),
    (
        &["block=40"],
        b"begin z si\nwrite put 'a '1\nwrite put 'b '1\nwrite put 'b '2\nwrite put 'b '3\nwrite put 'c '1\nflush\nbegin t si\nscan t desc * * n1 s'b n9\nscan z asc * *\nget t 'b\n",
    ),
    (
        &["op=concat"],
        b"write merge 'k 'a\nwrite merge 'k 'b\nbegin t si\nwrite merge 'k 'c\nflush\nget t 'k\nbegin u si\nget u 'k\nscan u asc * *\n",
    ),
    (
        &["seg=colon", "ttl=10"],
        b"now 5\nwrite put 'b:1 '1 put 'a:1 '2\nflush\nbegin t si\nscan t desc * *\nprefix t asc 'a: * *\nget t 'a:1\n",
    ),
    (
        &["xor=255"],
        b"write put 'a '1 put 'b '2\nflush\nbegin t si\nget t 'b\nscan t asc * *\n",
    ),
    (
        &["table=1"],
        b"write put 'a '1 put 'b '2 put 'c '3\nflush\nbegin t si\nscan t desc * *\nget t 'b\nget t 'd\n",
    ),
    (
        &[],
        b"write put 'a '1 put 'b '2\nsnapshot s\nwrite put 'a '3 delete 'b\nflush\nget s 'a\nscan s asc * *\nrollback s\nbegin s si\nscan s asc * *\n",
    ),
    (
        &["block=30"],
        b"write put 'test_a '0 put 'test_b '1 put 'other '2\nflush\nwrite delete 'test_b put 'test_e '4\nflush\nbegin t si\nprefix t asc 'test * *\nprefix t desc 'test * i'test_c\nget t 'test_b\n",
    ),
    (
        &["op=max"],
        b"write merge 'k 'b\nflush\nwrite merge 'k 'a put 'l '1\nflush\nbegin t ssi\nget t 'k\nscan t asc * *\nwrite put 'l '2\nput t 'm '1\ncommit t\n",
    ),
];
