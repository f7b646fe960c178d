//! What filters are for their readers, proved.
ghost use Rattle.slate_filter.specs.Laws.{BloomIsLawful, ExtractorsAreLawful, FiltersDenyNothingGiven, FiltersLetThroughWhatIsGiven, SetBitsAreProbes};

/// No Bloom filter denies a query that one of its rows matches, and none refuses its own bytes.
pub fn bloom_is_lawful()
    ensures { BloomIsLawful }
{}

/// The extractors that come with the store are lawful.
pub fn extractors_are_lawful()
    ensures { ExtractorsAreLawful }
{}

/// No table is skipped for a query that one of its rows matches.
pub fn filters_deny_nothing_given()
    ensures { FiltersDenyNothingGiven }
{}

/// A table is read for a query that one of its rows matches.
pub fn filters_let_through_what_is_given()
    ensures { FiltersLetThroughWhatIsGiven }
{}

/// The set bits of a filter are exactly the probes of what it was made of.
pub fn set_bits_are_probes()
    ensures { SetBitsAreProbes }
{}
