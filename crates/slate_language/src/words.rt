//! The words of a run.
ghost use Rattle.std.specs.Prelude.{◌≡◌, ◌≤◌, ◌+◌, ◌^◌, ◌&&◌, IfSome, bytes_eq, codes, map, option_map, is_some};
ghost use Rattle.std.specs.List.{list_all};
ghost use Rattle.std.specs.Option.{option_copied};
ghost use Rattle.std.specs.String.{string_bytes};
ghost use Rattle.slate_types.specs.Config.{IsValid};
ghost use Rattle.slate_types.specs.Keys.{among};
ghost use Rattle.slate_language.specs.Parse.{read_number};
ghost use Rattle.slate_language.specs.Words.{are_filters, are_handed, behind, filter_names, if_valid, is_handed, is_known, is_none, is_used, may_stand, max_rounds, only_value, operator_of, options, read_below, read_extractor, read_fixed, read_format, read_generated, read_operator, read_settings, read_words, segments_of, used, value_of};

use crate::extractors::NamedExtractor;
use crate::operators::NamedOperator;
use crate::token::{is_word, read_number};
use slate_filter::FilterPolicy;
use slate_types::{BlockFormat, Options};

/// What the words of a run set: its options, and, where there are such, the number by which stored bytes are changed, the
/// merge operator, and what gives keys their segments.
#[derive(Clone, Copy)]
pub struct Settings {
    pub options: Options,
    pub mask: Option<u8>,
    pub operator: Option<NamedOperator>,
    pub segments: Option<NamedExtractor>,
}

/// A run over a script that it makes for itself.
#[derive(Clone, Copy)]
pub struct Generated {
    /// How many rounds the script has.
    pub rounds: u32,
    /// The number that its keys are drawn from.
    pub seed: u64,
    pub settings: Settings,
}

/// The most rounds of a script that a run makes for itself.
pub const MAX_ROUNDS: u32 = 100_000;

/// The settings of the words `block=`, `table=`, `format=`, `min=`, `op=`, `seg=`, `ttl=`, `seq=` and `xor=`, each at most once, and
/// beside them words `filter=`, in any order. What no word sets is as by default. None exactly where a word is none of these,
/// two have one name other than `filter=`, a value isn't read, the options aren't valid, or the words `filter=` aren't as the
/// policies that are handed in allow: each names one of these, and no two the same one, or there is one, and it says `none`.
pub fn parse_words(words: &[String], policies: &[Box<dyn FilterPolicy>]) -> Option<Settings>
    ensures settings { result
        ≡ read_words (map (λ p. (meaning p).name) policies.now) (map string_bytes words.now) }
    ensures valid { IfSome result (λ s. IsValid s.options) }
{
    if !are_taken(words, policies) {
        return None;
    }
    read_settings(words)
}

/// Of the policies that are handed in, those that words which `parse_words` or `parse_generated` read use: those that their
/// words `filter=` name, and without such words the one that is named `_bf`, in the order in which they were handed in.
pub fn keep_used(
    policies: Vec<Box<dyn FilterPolicy>>,
    words: &[String],
) -> Vec<Box<dyn FilterPolicy>>
    ensures { map (λ p. meaning p) result.items
        ≡ used (map string_bytes words.now) (map (λ p. meaning p) policies.items) }
{
    let mut kept = policies;
    kept.retain(
        |policy| -> bool
            ensures { result
                ≡ is_used (filter_names (map string_bytes words.entry.now))
                (meaning policy.now).name }
        { is_used(words, policy.name().as_bytes()) },
    );
    kept
}

/// What the words set, where each has one of the names, and the policies are as they allow.
fn read_settings(words: &[String]) -> Option<Settings>
    ensures settings { result ≡ read_settings (map string_bytes words.now) }
    ensures valid { IfSome result (λ s. IsValid s.options) }
{
    let block_size = small_number(words, b"block=")?;
    let table_bytes = number(words, b"table=")?;
    let block_format = block_format(words)?;
    let default_ttl_millis = number(words, b"ttl=")?;
    let start_seq = number(words, b"seq=")?;
    let min_filter_keys = small_number(words, b"min=")?;
    let mask = mask(words)?;
    let operator = operator(words)?;
    let segments = segments(words)?;
    if_valid(Settings {
        options: options(
            block_size,
            table_bytes,
            block_format,
            default_ttl_millis,
            start_seq,
            min_filter_keys,
        ),
        mask,
        operator,
        segments,
    })
}

/// What the words `gen`, how many rounds, and the number that they begin at, set with those of the settings behind them. None
/// exactly where the first word isn't `gen`, the second no number up to `MAX_ROUNDS`, the third no number of 64 bits, or
/// the others are no words of settings.
pub fn parse_generated(words: &[String], policies: &[Box<dyn FilterPolicy>]) -> Option<Generated>
    ensures generated { result
        ≡ read_generated (map (λ p. (meaning p).name) policies.now) (map string_bytes words.now) }
    ensures valid { IfSome result (λ g. IsValid g.settings.options) }
    ensures bounded { IfSome result (λ g. g.rounds ≤ max_rounds) }
{
    let [first, rounds, seed, rest @ ..] = words else {
        return None;
    };
    if !is_word(first.as_bytes(), b"gen") {
        return None;
    }
    let rounds = read_rounds(rounds.as_bytes())?;
    let seed = read_number(seed.as_bytes())?;
    let settings = parse_words(rest, policies)?;
    Some(Generated {
        rounds,
        seed,
        settings,
    })
}

fn read_rounds(text: &[u8]) -> Option<u32>
    ensures { result ≡ read_below (max_rounds + 1) text.now }
{
    let rounds = u32::try_from(read_number(text)?).ok()?;
    (rounds <= MAX_ROUNDS).then_some(rounds)
}

#[tactic(auto, using(crate::proofs::WordLaws::test_is))]
fn if_valid(settings: Settings) -> Option<Settings>
    ensures settings { result ≡ if_valid settings }
    ensures valid { IfSome result (λ s. IsValid s.options) }
{
    settings.options.is_valid().then_some(settings)
}

/// Whether each word begins with one of the names, and the words `filter=` are as the policies allow.
fn are_taken(words: &[String], policies: &[Box<dyn FilterPolicy>]) -> bool
    ensures { result ≡ (list_all is_known (map string_bytes words.now)
        && are_filters (map (λ p. (meaning p).name) policies.now)
        (filter_names (map string_bytes words.now))) }
{
    are_known(words) && are_filters(words, policies)
}

/// The defaults, with these in their place.
fn options(
    block_size: Option<u32>,
    table_bytes: Option<u64>,
    block_format: Option<BlockFormat>,
    default_ttl_millis: Option<u64>,
    start_seq: Option<u64>,
    min_filter_keys: Option<u32>,
) -> Options
    ensures { result
        ≡ options block_size table_bytes block_format default_ttl_millis start_seq min_filter_keys }
{
    let mut options = Options::new();
    options.block_size = block_size.unwrap_or(options.block_size);
    options.table_bytes = table_bytes.unwrap_or(options.table_bytes);
    options.block_format = block_format.unwrap_or(options.block_format);
    options.default_ttl_millis = default_ttl_millis;
    options.start_seq = start_seq.unwrap_or(options.start_seq);
    options.min_filter_keys = min_filter_keys.unwrap_or(options.min_filter_keys);
    options
}

/// Whether each word begins with one of the names.
fn are_known(words: &[String]) -> bool
    ensures { result ≡ list_all is_known (map string_bytes words.now) }
{
    for word in words {
        if !is_known(word.as_bytes()) {
            return false;
        }
    }
    true
}

fn is_known(word: &[u8]) -> bool
    ensures { result ≡ is_known word.now }
{
    has_name(b"block=", word)
        || has_name(b"table=", word)
        || has_name(b"format=", word)
        || has_name(b"min=", word)
        || has_name(b"filter=", word)
        || has_name(b"op=", word)
        || has_name(b"seg=", word)
        || has_name(b"ttl=", word)
        || has_name(b"seq=", word)
        || has_name(b"xor=", word)
}

fn has_name(name: &[u8], word: &[u8]) -> bool
    ensures { result ≡ is_some (behind name.now word.now) }
{
    behind(name, word).is_some()
}

/// What stands behind the name in a word that begins with it.
fn behind<'a>(name: &[u8], word: &'a [u8]) -> Option<&'a [u8]>
    ensures { option_copied result ≡ behind name.now word.now }
{
    word.strip_prefix(name)
}

fn small_number(words: &[String], name: &[u8]) -> Option<Option<u32>>
    ensures { result ≡ value_of (read_below (2 ^ 32)) name.now (map string_bytes words.now) }
{
    match number(words, name)? {
        Some(value) => u32::try_from(value).ok().map(Some),
        None => Some(None),
    }
}

fn mask(words: &[String]) -> Option<Option<u8>>
    ensures { result ≡ value_of (read_below (2 ^ 8)) (codes "xor=") (map string_bytes words.now) }
{
    match number(words, b"xor=")? {
        Some(value) => u8::try_from(value).ok().map(Some),
        None => Some(None),
    }
}

fn number(words: &[String], name: &[u8]) -> Option<Option<u64>>
    ensures { result ≡ value_of read_number name.now (map string_bytes words.now) }
{
    match only_value(words, name)? {
        Some(value) => Some(Some(read_number(value)?)),
        None => Some(None),
    }
}

fn block_format(words: &[String]) -> Option<Option<BlockFormat>>
    ensures { result ≡ value_of read_format (codes "format=") (map string_bytes words.now) }
{
    match only_value(words, b"format=")? {
        Some(value) => Some(Some(read_format(value)?)),
        None => Some(None),
    }
}

fn read_format(text: &[u8]) -> Option<BlockFormat>
    ensures { result ≡ read_format text.now }
{
    if is_word(text, b"v1") {
        Some(BlockFormat::V1)
    } else if is_word(text, b"v2") {
        Some(BlockFormat::V2)
    } else if is_word(text, b"v3") {
        Some(BlockFormat::V3)
    } else if is_word(text, b"latest") {
        Some(BlockFormat::Latest)
    } else {
        None
    }
}

fn operator(words: &[String]) -> Option<Option<NamedOperator>>
    ensures { result ≡ operator_of (map string_bytes words.now) }
{
    match only_value(words, b"op=")? {
        Some(value) => read_operator(value),
        None => Some(None),
    }
}

/// The operator that the text names, if it is one of the names; `none` is that of no operator.
fn read_operator(text: &[u8]) -> Option<Option<NamedOperator>>
    ensures { result ≡ read_operator text.now }
{
    if is_word(text, b"none") {
        Some(None)
    } else if is_word(text, b"concat") {
        Some(Some(NamedOperator::Concat))
    } else if is_word(text, b"max") {
        Some(Some(NamedOperator::Max))
    } else {
        None
    }
}

fn segments(words: &[String]) -> Option<Option<NamedExtractor>>
    ensures { result ≡ segments_of (map string_bytes words.now) }
{
    match only_value(words, b"seg=")? {
        Some(value) => read_extractor(value),
        None => Some(None),
    }
}

/// The extractor that the text names, if it is one of the names; `none` is that of no extractor.
fn read_extractor(text: &[u8]) -> Option<Option<NamedExtractor>>
    ensures { result ≡ read_extractor text.now }
{
    if is_word(text, b"none") {
        Some(None)
    } else if is_word(text, b"colon") {
        Some(Some(NamedExtractor::Colon))
    } else if is_word(text, b"lastcolon") {
        Some(Some(NamedExtractor::LastColon))
    } else {
        read_fixed(text).map(Some)
    }
}

/// `fixed` and how many bytes, which are at least one.
fn read_fixed(text: &[u8]) -> Option<NamedExtractor>
    ensures { result ≡ read_fixed text.now }
{
    let len = read_number(behind(b"fixed", text)?)?;
    let len = u16::try_from(len).ok()?;
    (len > 0).then_some(NamedExtractor::Fixed(len))
}

/// What stands behind the name in the one word that begins with it; none where no word does, and nothing
/// where more than one does.
fn only_value<'a>(words: &'a [String], name: &[u8]) -> Option<Option<&'a [u8]>>
    ensures { option_map option_copied result ≡ only_value name.now (map string_bytes words.now) }
{
    let mut found = None;
    for word in words {
        if let Some(value) = behind(name, word.as_bytes()) {
            if found.is_some() {
                return None;
            }
            found = Some(value);
        }
    }
    Some(found)
}

/// Whether the words `filter=` name policies that are handed in, and no two the same one, or there is one, and it says `none`.
fn are_filters(words: &[String], policies: &[Box<dyn FilterPolicy>]) -> bool
    ensures { result
        ≡ are_filters (map (λ p. (meaning p).name) policies.now)
        (filter_names (map string_bytes words.now)) }
{
    is_none(words) || are_handed(words, policies)
}

/// Whether there is one word `filter=`, and it says `none`.
fn is_none(words: &[String]) -> bool
    ensures { result ≡ is_none (filter_names (map string_bytes words.now)) }
{
    match only_value(words, b"filter=") {
        Some(Some(name)) => is_word(name, b"none"),
        _ => false,
    }
}

/// Whether the words `filter=` name policies that are handed in, and no two the same one.
fn are_handed(words: &[String], policies: &[Box<dyn FilterPolicy>]) -> bool
    ensures { result
        ≡ are_handed (map (λ p. (meaning p).name) policies.now)
        (filter_names (map string_bytes words.now)) }
{
    let mut left = words;
    while let Some((word, rest)) = left.split_first() {
        if !may_stand(word, rest, policies) {
            return false;
        }
        left = rest;
    }
    true
}

/// Whether the word is no word `filter=`, or names a policy that is handed in and that no later word names.
fn may_stand(word: &String, rest: &[String], policies: &[Box<dyn FilterPolicy>]) -> bool
    ensures { result
        ≡ may_stand (map (λ p. (meaning p).name) policies.now)
        (behind (codes "filter=") (string_bytes word.now)) (filter_names (map string_bytes rest.now)) }
{
    match behind(b"filter=", word.as_bytes()) {
        Some(name) => is_handed(name, rest, policies),
        None => true,
    }
}

fn is_handed(name: &[u8], rest: &[String], policies: &[Box<dyn FilterPolicy>]) -> bool
    ensures { result
        ≡ is_handed (map (λ p. (meaning p).name) policies.now) name.now
        (filter_names (map string_bytes rest.now)) }
{
    has_policy(policies, name) && !is_word(name, b"none") && !is_named(rest, name)
}

/// Whether a policy of the name is handed in.
fn has_policy(policies: &[Box<dyn FilterPolicy>], name: &[u8]) -> bool
    ensures { result ≡ among name.now (map (λ p. (meaning p).name) policies.now) }
{
    for policy in policies {
        if has_that_name(policy, name) {
            return true;
        }
    }
    false
}

fn has_that_name(policy: &Box<dyn FilterPolicy>, name: &[u8]) -> bool
    ensures { result ≡ bytes_eq (meaning policy.now).name name.now }
{
    is_word(policy.name().as_bytes(), name)
}

/// Whether a word `filter=` has the name.
fn is_named(words: &[String], name: &[u8]) -> bool
    ensures { result ≡ among name.now (filter_names (map string_bytes words.now)) }
{
    for word in words {
        if let Some(given) = behind(b"filter=", word.as_bytes()) {
            if is_word(given, name) {
                return true;
            }
        }
    }
    false
}

/// Whether the words use the policies of the name.
fn is_used(words: &[String], name: &[u8]) -> bool
    ensures { result ≡ is_used (filter_names (map string_bytes words.now)) name.now }
{
    match only_value(words, b"filter=") {
        Some(None) => is_word(name, b"_bf"),
        Some(Some(only)) => !is_word(only, b"none") && is_word(only, name),
        None => is_named(words, name),
    }
}
