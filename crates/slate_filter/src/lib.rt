//! Filters of tables: what a table's filters hold, and when a get may pass the table by.
//!
//! A table may have a filter of each policy. A get whose query a filter denies doesn't read the table's blocks.
//! `specs/Bloom.antt` says which bytes a Bloom filter has and what it answers, over the hash of `specs/Hash.antt`.
//! `specs/Policy.antt` says what is asked of a policy of one's own: that it denies no query that one of its rows matches.
//! `specs/Asking.antt` says what the filters of a table answer together.
#![tactic(auto)]

pub mod asking;
pub(crate) mod bloom_bits;
pub mod bloom_builder;
pub mod bloom_filter;
pub(crate) mod bloom_name;
pub mod bloom_policy;
pub mod extractors;
pub mod filter_policy;
pub mod filters;
pub mod hash;
pub(crate) mod hashing;
pub(crate) mod holding;
pub mod laws;
pub mod named_filter;
pub mod names;
pub mod probes;
pub mod vectors;

pub use asking::{asked_by, let_through};
pub use bloom_builder::BloomFilterBuilder;
pub use bloom_filter::BloomFilter;
pub use bloom_policy::BloomFilterPolicy;
pub use extractors::{ColonExtractor, FixedExtractor, LastColonExtractor};
pub use filter_policy::FilterPolicy;
pub use filters::build_filters;
pub use hash::filter_hash;
pub use named_filter::NamedFilter;
pub use names::{have_valid_names, is_text};
pub use probes::{check_bit, optimal_num_probes, probes_for_key, set_bit};

fn crosses<T: Send + Sync>() {}

/// The types of this crate go to other threads, and are shared between them.
pub fn types_cross_threads() {
    crosses::<
        (
            (
                BloomFilter<ColonExtractor>,
                BloomFilterBuilder<FixedExtractor>,
            ),
            (BloomFilterPolicy<LastColonExtractor>, NamedFilter),
        ),
    >();
}
