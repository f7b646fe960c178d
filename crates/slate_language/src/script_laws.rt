//! The laws of lines, of replies, of the words of a run, and of the parts that words can name. Each is proved of all values, and no call does anything.
ghost use Rattle.slate_language.specs.ScriptLaws.{ConcatIsLawful, CutsALine, EmptyIsSilent, FiltersInAnyOrder, GeneratedIsWellFormed, GreaterIsLawful, HasOneMeaning, NamedExtractorIsLawful, NamedIsLawful, ReadsNothingElse, ReadsTheGrammar, ReadsWhatIsShown, StoringIsSilent, TallyIsSummary, WordsInAnyOrder, WordsNameOneScript, XorIsLawful};

/// What the grammar has is read, with its meaning.
pub fn reads_the_grammar()
    ensures { ReadsTheGrammar }
{}

/// What is read is in the grammar.
pub fn reads_nothing_else()
    ensures { ReadsNothingElse }
{}

/// What bytes are shown as spells them.
pub fn reads_what_is_shown()
    ensures { ReadsWhatIsShown }
{}

/// No bytes have two meanings.
pub fn has_one_meaning()
    ensures { HasOneMeaning }
{}

/// An empty script has no replies.
pub fn empty_is_silent()
    ensures { EmptyIsSilent }
{}

/// A line with its end, before more bytes, is the first line.
pub fn cuts_a_line()
    ensures { CutsALine }
{}

/// The operator that appends is lawful.
pub fn concat_is_lawful()
    ensures { ConcatIsLawful }
{}

/// The operator that keeps the greater value is lawful.
pub fn greater_is_lawful()
    ensures { GreaterIsLawful }
{}

/// Each operator that a word can name is lawful.
pub fn named_is_lawful()
    ensures { NamedIsLawful }
{}

/// Each extractor that a word can name is lawful.
pub fn named_extractor_is_lawful()
    ensures { NamedExtractorIsLawful }
{}

/// The transformer that changes each byte by one number is lawful.
pub fn xor_is_lawful()
    ensures { XorIsLawful }
{}

/// Freezes and flushes change no other reply.
pub fn storing_is_silent()
    ensures { StoringIsSilent }
{}

/// Words may come in any order.
pub fn words_in_any_order()
    ensures settings { WordsInAnyOrder }
    ensures filters { FiltersInAnyOrder }
{}

/// No words say both that a run makes its script and that it reads one.
pub fn words_name_one_script()
    ensures { WordsNameOneScript }
{}

/// A script that a run makes for itself is well formed.
pub fn generated_is_well_formed()
    ensures { GeneratedIsWellFormed }
{}

/// What is counted of the replies to a well-formed script is its summary.
pub fn tally_is_summary()
    ensures { TallyIsSummary }
{}
