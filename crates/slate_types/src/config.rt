//! Options of a database and of single calls.
ghost use Rattle.std.specs.Prelude.{◌≡◌, ◌↔◌, IsTrue};
ghost use Rattle.slate_types.specs.Expiry.{expiry};
ghost use Rattle.slate_types.specs.Config.{IsValid};
ghost use Rattle.slate_types.specs.Config as config;

use crate::filter_policy::FilterContext;
use crate::iter::IterationOrder;

/// Which commits a transaction conflicts with: those that write what it writes, or also those that
/// write what it read.
#[derive(Clone, Copy, PartialEq, Eq, Default)]
pub enum IsolationLevel {
    #[default]
    Snapshot,
    SerializableSnapshot,
}

/// The version in which tables and their blocks are written. `V3` writes blocks as `V2` does, and the checksum of each section
/// covers the table's id, the section's kind and its offset too. `Latest` is `V2`.
#[derive(Clone, Copy, Debug, PartialEq, Eq)]
pub enum BlockFormat {
    V1,
    V2,
    V3,
    Latest,
}

/// Names of codecs. None is built: a table or options that name one are refused.
#[derive(Clone, Copy, Debug, PartialEq, Eq)]
pub enum CompressionCodec {
    Snappy = 1,
    Zlib = 2,
    Lz4 = 3,
    Zstd = 4,
}

/// How long a row lives, in milliseconds.
#[derive(Clone, Copy, PartialEq, Eq, Default)]
pub enum Ttl {
    #[default]
    Default,
    NoExpiry,
    ExpireAfter(u64),
}

impl Ttl {
    /// When a row of the moment `now` expires, in milliseconds. `default` stands for `Default`.
    fn expire_ts_from(self, default: Option<u64>, now: i64) -> Option<i64>
        ensures { result ≡ expiry self default now }
    {
        match self {
            Ttl::Default => now.checked_add_unsigned(default?),
            Ttl::NoExpiry => None,
            Ttl::ExpireAfter(millis) => now.checked_add_unsigned(millis),
        }
    }
}

/// Options of one put.
#[derive(Clone, Copy, PartialEq, Eq, Default)]
pub struct PutOptions {
    pub ttl: Ttl,
}

impl PutOptions {
    /// When the row of a put expires, in milliseconds: the moment and the time to live, where there is
    /// one and the sum is a moment. `default` is the database's time to live.
    pub fn expire_ts_from(&self, default: Option<u64>, now: i64) -> Option<i64>
        ensures { result ≡ expiry self.now.ttl default now }
    {
        self.ttl.expire_ts_from(default, now)
    }
}

/// Options of one merge.
#[derive(Clone, Copy, PartialEq, Eq, Default)]
pub struct MergeOptions {
    pub ttl: Ttl,
}

impl MergeOptions {
    /// When the row of a merge expires, in milliseconds: the moment and the time to live, where there is
    /// one and the sum is a moment. `default` is the database's time to live.
    pub fn expire_ts_from(&self, default: Option<u64>, now: i64) -> Option<i64>
        ensures { result ≡ expiry self.now.ttl default now }
    {
        self.ttl.expire_ts_from(default, now)
    }
}

/// Options of one get.
#[derive(Default, Drop)]
pub struct ReadOptions {
    pub filter_context: Option<FilterContext>,
}

/// Options of one scan.
#[derive(Default, Drop)]
pub struct ScanOptions {
    pub order: IterationOrder,
    pub filter_context: Option<FilterContext>,
}

/// Options of one commit: the moment, in milliseconds.
#[derive(Clone, Copy)]
pub struct WriteOptions {
    pub now: i64,
}

/// Options of a database. `new` has the defaults, and `is_valid` tests the limits.
#[derive(Clone, Copy)]
pub struct Options {
    /// The size in bytes that an encoded block is held to.
    pub block_size: u32,
    pub block_format: BlockFormat,
    /// A table with fewer rows gets no filters.
    pub min_filter_keys: u32,
    /// The size in bytes, estimated, at which a flush begins another table.
    pub table_bytes: u64,
    pub default_ttl_millis: Option<u64>,
    /// The sequence before the first.
    pub start_seq: u64,
    pub max_fetch_tasks: u32,
    pub target_bytes_to_fetch: u64,
    pub compression_codec: Option<CompressionCodec>,
}

impl Options {
    /// The defaults.
    pub fn new() -> Options
        ensures { result ≡ config.defaults }
    {
        Options {
            block_size: 4096,
            block_format: BlockFormat::Latest,
            min_filter_keys: 0,
            table_bytes: 67108864,
            default_ttl_millis: None,
            start_seq: 0,
            max_fetch_tasks: 1,
            target_bytes_to_fetch: 1,
            compression_codec: None,
        }
    }

    /// Whether each number is within its limits and no codec is named.
    pub fn is_valid(&self) -> bool
        ensures { IsTrue result ↔ IsValid self.now }
    {
        (1..=65535).contains(&self.block_size)
            && self.table_bytes > 0
            && self.max_fetch_tasks > 0
            && self.target_bytes_to_fetch > 0
            && self.start_seq < u64::MAX
            && self.compression_codec.is_none()
    }
}
